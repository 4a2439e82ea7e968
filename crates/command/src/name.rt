// The words that commands begin with.
ghost use Rattle.std.specs.Prelude.{◌≡◌};
ghost use Rattle.command.specs.Name.{name_of};

#[derive(Clone, Copy, Debug, PartialEq, Eq)]
pub(crate) enum Name {
    Week,
    Batch,
    Table,
    Log,
    Choose,
    Records,
    Check,
    Run,
    Show,
    List,
    Sheet,
    Open,
    Add,
    Withdraw,
    Plan,
    Book,
    Hold,
    Help,
}

// The name that a word is.
#[tactic(auto, unfolding(crate::specs::Name::name_of, crate::specs::Name::name_among))]
pub(crate) fn name_of(word: &[u8]) -> Option<Name>
    ensures { result ≡ name_of word.now }
{
    match word {
        b"week" => Some(Name::Week),
        b"batch" => Some(Name::Batch),
        b"table" => Some(Name::Table),
        b"log" => Some(Name::Log),
        b"choose" => Some(Name::Choose),
        b"records" => Some(Name::Records),
        b"check" => Some(Name::Check),
        b"run" => Some(Name::Run),
        b"show" => Some(Name::Show),
        b"list" => Some(Name::List),
        b"sheet" => Some(Name::Sheet),
        b"open" => Some(Name::Open),
        b"add" => Some(Name::Add),
        b"withdraw" => Some(Name::Withdraw),
        b"plan" => Some(Name::Plan),
        b"book" => Some(Name::Book),
        b"hold" => Some(Name::Hold),
        b"help" => Some(Name::Help),
        _ => None,
    }
}

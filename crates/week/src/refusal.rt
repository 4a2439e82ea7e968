// What refuses, and document 01's answer of it: "An answer of refusal is three numbers: its own, a place and a recipe."
ghost use Rattle.std.specs.Prelude.{◌≡◌};
ghost use Rattle.week.specs.Fault.{number_of, fault_at, place_in, AnsweredAs};

// Each has its number in document 01, "Who can be refused, and why"; from 20 on in document 02, which has "10 no longer occurs".
#[derive(Clone, Copy, Debug, PartialEq, Eq)]
pub enum Reason {
    // The week's minutes, and how many batches it has.
    ClosesTooSoon = 1,
    LastsTooLong = 2,
    TooManyBatches = 3,
    // A batch: its recipes, its minutes, a recipe's cost and worth, its number.
    RecipeCount = 4,
    DueTooSoon = 5,
    ArrivesTooLate = 6,
    CostRises = 7,
    WorthWithoutCost = 8,
    NumberTaken = 9,
    // What a calling program hands over.
    ShortTable = 11,
    ShortLog = 12,
    NoSuchChoice = 13,
    ShortBuffer = 19,
    // The backward rule.
    NoPlan = 14,
    BreaksTheRule = 15,
    // A sheet.
    NoFrame = 16,
    MisplacedFrame = 17,
    LongSheet = 18,
    // The week book.
    FullBook = 20,
    NumberNotHeld = 21,
}

impl Reason {
    // The number of the case, which a cast alone gives.
    pub fn number(self) -> u8
        ensures { result ≡ number_of self }
    {
        self as u8
    }
}

// The error of whatever can be refused: the reason with the place and the recipe that it names, 0 where it names none. Document 01's own
// numbers, from 1, and no `Option`: each is answered and printed as it stands.
#[derive(Clone, Copy, Debug, PartialEq, Eq)]
pub struct Fault {
    pub reason: Reason,
    pub place: usize,
    pub recipe: usize,
}

impl Fault {
    // A reason that names no place. No `From`: where one refuses, the line says that it makes a fault.
    pub fn of(reason: Reason) -> Fault
        ensures { result ≡ fault_at reason 0 0 }
    {
        Fault {
            reason,
            place: 0,
            recipe: 0,
        }
    }

    // The same, in a place.
    pub fn in_place(self, place: usize) -> Fault
        ensures { result ≡ place_in place self }
    {
        Fault { place, ..self }
    }
}

// Document 01's three numbers, as they are answered. No fault is answered as 0, 0, 0: that is where nothing is refused.
#[derive(Clone, Copy, Debug, PartialEq, Eq)]
pub struct Refusal {
    pub number: u8,
    pub place: usize,
    pub recipe: usize,
}

impl From<Fault> for Refusal {
    ghost from_gives = { AnsweredAs };

    fn from(fault: Fault) -> Refusal {
        Refusal {
            number: fault.reason.number(),
            place: fault.place,
            recipe: fault.recipe,
        }
    }
}

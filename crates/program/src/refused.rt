// A refusal: what a reader or the check answers where it can't go on.
ghost use Rattle.std.specs.Prelude.{◌≡◌, ◌/◌, ◌%◌};
ghost use Rattle.program.specs.Answer.{place_limit, refusal};

// From this bit on stands the number, below it the place.
const PLACES: u64 = 4294967296;

// Document 01's number, and the place in the program that shows it. Both are in one word: a `Result` of one word is handed back
// in two registers, of two through memory (blocks of assignments and nests of queries then take a third to a half longer).
#[derive(Clone, Copy, Debug, PartialEq, Eq)]
pub struct Refused {
    pub word: u64,
}

impl Refused {
    // The refusal with a number at a place.
    #[tactic(auto, unfolding(crate::specs::Answer::refusal))]
    pub fn new(number: u32, place: usize) -> Refused
        ensures { result.word ≡ refusal number place }
    {
        Refused {
            word: u64::from(number) * PLACES + (place as u64) % PLACES,
        }
    }

    // Document 01's number.
    pub fn number(self) -> u32
        ensures { result ≡ self.word / place_limit }
    {
        (self.word / PLACES) as u32
    }

    // The place in the program that shows it.
    pub fn place(self) -> usize
        ensures { result ≡ self.word % place_limit }
    {
        (self.word % PLACES) as usize
    }
}

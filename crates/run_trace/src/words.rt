// The words that the program may be started with.
ghost use Rattle.std.specs.Prelude.{◌≡◌};
ghost use Rattle.run_trace.specs.Words.{number_in, word_of, of_one, of_two};

// What a word is. Any other word is a kind of its own, and no None: that is where there is no word.
#[derive(Clone, Copy)]
pub enum Word {
    // A trace number.
    Number(u32),
    // The word `touches`.
    Touches,
    Other,
}

// What the words ask for: the records of this trace, with the edges that only touch the window or without them.
#[derive(Clone, Copy)]
pub struct Asked {
    pub whose: u32,
    pub touches: bool,
}

// The greatest trace number has as many digits.
const DIGITS: usize = 10;

pub fn word_of(word: &[u8]) -> Word
    ensures { result ≡ word_of word.now }
{
    if word == &b"touches"[..] {
        Word::Touches
    } else {
        number_in(word)
    }
}

// What one word asks for, where there is such a thing.
#[tactic(auto, unfolding(crate::specs::Words::of_one))]
pub fn of_one(word: Word) -> Option<Asked>
    ensures { result ≡ of_one word }
{
    match word {
        Word::Number(whose) => Some(Asked {
            whose,
            touches: false,
        }),
        Word::Touches => Some(Asked {
            whose: 0,
            touches: true,
        }),
        Word::Other => None,
    }
}

// What two words ask for, whichever is first.
#[tactic(auto, unfolding(crate::specs::Words::of_two))]
pub fn of_two(word: Word, other: Word) -> Option<Asked>
    ensures { result ≡ of_two word other }
{
    match (word, other) {
        (Word::Number(whose), Word::Touches) | (Word::Touches, Word::Number(whose)) => {
            Some(Asked {
                whose,
                touches: true,
            })
        }
        _ => None,
    }
}

// A trace number in decimal: one to ten digits, at most 4294967295. std's `parse` would take a sign, and more zeros.
fn number_in(word: &[u8]) -> Word
    ensures { result ≡ number_in word.now }
{
    if word.is_empty() || DIGITS < word.len() {
        return Word::Other;
    }
    let mut n: u64 = 0;
    for &digit in word {
        if !digit.is_ascii_digit() {
            return Word::Other;
        }
        n = n * 10 + u64::from(digit - b'0');
    }
    match u32::try_from(n) {
        Ok(whose) => Word::Number(whose),
        Err(_) => Word::Other,
    }
}

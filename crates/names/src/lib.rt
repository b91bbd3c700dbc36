// Names (01, section Names): what a string of open says, and the names that link and default take.
#![tactic(auto)]

ghost use Rattle.std.specs.Prelude.{◌≡◌, cond, leb, take};
ghost use Rattle.names.specs.Definition.Grammar.{All, Digit, value};
ghost use Rattle.names.specs.Definition.Words.{upper, word_of};
ghost use Rattle.names.specs.Definition.Tests.{of_kind, run_of, file_test, letters_test, link_name_test, default_name_test};
ghost use Rattle.names.specs.Definition.Read.{digits_test, without_colon, reading};
ghost use Rattle.names.specs.Definition.Parts.{parts_of};
ghost use Rattle.names.specs.Within.Steps.{OfRest, OfHead};

// A kind of byte, of which a part of a name is a run. An enum and no closure, since the definitions name the kinds.
#[derive(Clone, Copy)]
enum Kind {
    Capital,
    Letter,
    Digit,
    FileByte,
    BeforeColon,
}

// What a string says. The device's letters stand at the front of the string, and the file from `file` to its end.
#[derive(Clone, Copy)]
pub struct Parts {
    pub letters: usize,
    pub unit: Option<u8>,
    pub file: usize,
}

fn of_kind(kind: Kind, b: u8) -> bool
    ensures { result ≡ of_kind kind b }
{
    match kind {
        Kind::Capital => b.is_ascii_uppercase(),
        Kind::Letter => b.is_ascii_alphabetic(),
        Kind::Digit => b.is_ascii_digit(),
        Kind::FileByte => b.is_ascii_graphic() & (b != b':'),
        Kind::BeforeColon => b != b':',
    }
}

// How many bytes at the front of `s` are of the kind.
#[tactic(auto, unfolding(crate::specs::Definition::Tests::run_of))]
fn run(s: &[u8], kind: Kind) -> usize
    ensures { result ≡ run_of kind s.now }
{
    s.iter().take_while(|&&b| of_kind(kind, b)).count()
}

#[tactic(auto, unfolding(crate::specs::Definition::Tests::file_test, crate::specs::Definition::Tests::all_of))]
fn is_file(s: &[u8]) -> bool
    ensures { result ≡ file_test s.now }
{
    (s.len() <= 28) & (run(s, Kind::FileByte) == s.len())
}

// The number that digits spell, if it is at most 255.
fn value_of(digits: &[u8]) -> Option<u8>
    requires { All Digit digits.now }
    ensures { result ≡ cond (leb (value 0 digits.now) 255) (Some (value 0 digits.now)) None }
{
    let mut n: u8 = 0;
    for &digit in digits {
        n = n.checked_mul(10)?.checked_add(digit - b'0')?;
    }
    Some(n)
}

// A unit's number.
#[tactic(auto, unfolding(crate::specs::Definition::Read::digits_test, crate::specs::Definition::Tests::all_of), using(crate::proofs::Steps::steps))]
fn number(digits: &[u8]) -> Option<u8>
    ensures { result ≡ cond (digits_test digits.now) (Some (value 0 digits.now)) None }
{
    if digits.is_empty() || run(digits, Kind::Digit) != digits.len() {
        return None;
    }
    value_of(digits)
}

// `rest` stands between the device and the colon.
#[tactic(auto, unfolding(crate::specs::Definition::Read::with_unit), using(crate::proofs::Steps::steps))]
fn unit(rest: &[u8]) -> Option<Option<u8>>
    ensures { OfRest rest.now result }
{
    if rest.is_empty() {
        return Some(None);
    }
    let digits = if rest[0] == b'-' { &rest[1..] } else { rest };
    number(digits).map(Some)
}

// `head` stands before the colon.
#[tactic(auto, unfolding(crate::specs::Definition::Read::with_head), using(crate::proofs::Steps::steps))]
fn with_head(head: &[u8], file: usize) -> Option<Parts>
    ensures { OfHead head.now file result }
{
    let letters = run(head, Kind::Letter);
    if 28 < letters {
        return None;
    }
    let unit = unit(&head[letters..])?;
    Some(Parts {
        letters,
        unit,
        file,
    })
}

#[tactic(auto, unfolding(crate::specs::Definition::Read::without_colon))]
fn without_colon(s: &[u8]) -> Option<Parts>
    ensures { result ≡ parts_of (without_colon s.now) }
{
    is_file(s).then_some(Parts {
        letters: 0,
        unit: None,
        file: 0,
    })
}

// What the string says, or none: the refusal NAME.
#[tactic(auto, unfolding(crate::specs::Definition::Read::reading, crate::specs::Definition::Read::with_colon), using(crate::proofs::Steps::steps))]
pub fn parse(s: &[u8]) -> Option<Parts>
    ensures { result ≡ parts_of (reading s.now) }
{
    if 255 < s.len() {
        return None;
    }
    let colon = run(s, Kind::BeforeColon);
    if colon == s.len() {
        return without_colon(s);
    }
    let file = colon + 1;
    if !is_file(&s[file..]) {
        return None;
    }
    with_head(&s[..colon], file)
}

#[tactic(auto, unfolding(crate::specs::Definition::Words::upper))]
pub fn upper_of(b: u8) -> u8
    ensures { result ≡ upper b }
{
    b.to_ascii_uppercase()
}

// The first `count` bytes of `s` in capitals, of which 28 find room, and zeros after them.
pub fn word(s: &[u8], count: usize) -> [u8; 28]
    ensures { result ≡ word_of (take count s.now) }
{
    let n = count.min(s.len()).min(28);
    let mut bytes = [0; 28];
    bytes[..n].copy_from_slice(&s[..n]);
    bytes.make_ascii_uppercase();
    bytes
}

#[tactic(auto, unfolding(crate::specs::Definition::Tests::letters_test, crate::specs::Definition::Tests::all_of))]
fn is_name(s: &[u8], kind: Kind) -> bool
    ensures { result ≡ letters_test kind s.now }
{
    (1 <= s.len()) & (s.len() <= 28) & (run(s, kind) == s.len())
}

pub fn link_name(s: &[u8]) -> bool
    ensures { result ≡ link_name_test s.now }
{
    is_name(s, Kind::Capital)
}

pub fn default_name(s: &[u8]) -> bool
    ensures { result ≡ default_name_test s.now }
{
    is_name(s, Kind::Letter)
}

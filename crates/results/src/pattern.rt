//! Words that choose cases by their names.

ghost use Rattle.std.specs.Prelude.{◌<◌, ◌↔◌, ℕ, List, IfNone, IfSome, IsTrue};
ghost use Rattle.results.specs.Patterns.{
  CutsAt,
  IsAtMost,
  IsGlob,
  IsInRange,
  IsOfGroup,
  IsRangeOf,
  Matches,
  Writes,
};

/// Whether a word chooses the case of this name: it is the name, or the group that the name has
/// before its `/`, or a range of a group, as `grpc/4-6`, in which the name's number is, or a text
/// with `*`, each of which stands for any text.
pub fn is_match(word: &str, name: &str) -> bool
    ensures { IsTrue result ↔ Matches word.now name.now }
{
    is_glob(word.as_bytes(), name.as_bytes()) || is_group(word, name) || is_in_range(word, name)
}

/// Whether a text is one that a word with `*` stands for.
fn is_glob(word: &[u8], text: &[u8]) -> bool
    ensures { IsTrue result ↔ IsGlob word.now text.now }
{
    let Some((byte, rest)) = word.split_first() else {
        return text.is_empty();
    };
    if *byte != b'*' {
        return match text.split_first() {
            Some((other, behind)) => byte == other && is_glob(rest, behind),
            None => false,
        };
    }
    if is_glob(rest, text) {
        return true;
    }
    match text.split_first() {
        Some((_, behind)) => is_glob(word, behind),
        None => false,
    }
}

/// The parts of a text before and after its first `mark`, which is an ASCII character.
fn cut_at(text: &str, mark: char) -> Option<(&str, &str)>
    requires { mark < 128 }
    ensures some { IfSome result (λ parts. CutsAt mark text.now parts.0.now parts.1.now) }
    ensures none { IfNone result ((front back : List ℕ) → ¬ CutsAt mark text.now front back) }
{
    text.split_once(mark)
}

/// Whether a name has this group.
fn is_group(word: &str, name: &str) -> bool
    ensures { IsTrue result ↔ IsOfGroup word.now name.now }
{
    match cut_at(name, '/') {
        Some((group, _)) => group == word,
        None => false,
    }
}

/// Whether a name's number is in a range of its group.
fn is_in_range(word: &str, name: &str) -> bool
    ensures { IsTrue result ↔ IsInRange word.now name.now }
{
    match (cut_at(word, '/'), cut_at(name, '/')) {
        (Some((group, range)), Some((of, digits))) => group == of && has_number(range, digits),
        _ => false,
    }
}

/// Whether a range, as `4-6`, has a number in it.
fn has_number(range: &str, number: &str) -> bool
    ensures { IsTrue result ↔ IsRangeOf range.now number.now }
{
    match cut_at(range, '-') {
        Some((low, high)) => is_at_most(low, number) && is_at_most(number, high),
        None => false,
    }
}

/// Whether digits write a number that is at most as great as that of others.
fn is_at_most(digits: &str, others: &str) -> bool
    ensures { IsTrue result ↔ IsAtMost digits.now others.now }
{
    match (number_of(digits), number_of(others)) {
        (Some(number), Some(most)) => number <= most,
        _ => false,
    }
}

/// The number that decimal digits write, up to 4,294,967,295.
fn number_of(digits: &str) -> Option<u32>
    ensures some { IfSome result (Writes digits.now) }
    ensures none { IfNone result ((number : ℕ) → ¬ Writes digits.now number) }
{
    if digits.starts_with('+') {
        return None;
    }
    digits.parse::<u32>().ok()
}

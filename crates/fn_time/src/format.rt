//! Which formats read and show moments.
ghost use Rattle.std.specs.Prelude.{◌≡◌, ◌==◌, []};
ghost use Rattle.std.specs.List.{list_all};
ghost use Rattle.fn_time.specs.Format.{is_known, is_read_format, is_shown_format, times_in};

const PART_LETTERS: &[u8] = b"YmdHMSz";

// Whether the letter is one of the eight.
fn is_known(letter: u8) -> bool
    ensures { result ≡ is_known letter }
{
    letter == b'%' || PART_LETTERS.contains(&letter)
}

/// Whether each conversion of the format has one of the letters of `%Y %m %d %H %M %S %z %%`. A `%`
/// at the end has none.
pub(crate) fn is_shown_format(format: &str) -> bool
    ensures { result ≡ is_shown_format format.now }
{
    let mut behind_sign = false;
    let mut left = format.as_bytes();
    while let Some((byte, others)) = left.split_first() {
        if behind_sign && !is_known(*byte) {
            return false;
        }
        behind_sign = !behind_sign && *byte == b'%';
        left = others;
    }
    !behind_sign
}

// How many conversions of the format have this letter.
fn times_in(letter: u8, format: &str) -> usize
    ensures { result ≡ times_in letter [] format.now }
{
    let mut times = 0;
    let mut behind_sign = false;
    let mut left = format.as_bytes();
    while let Some((byte, others)) = left.split_first() {
        if behind_sign && *byte == letter {
            times += 1;
        }
        behind_sign = !behind_sign && *byte == b'%';
        left = others;
    }
    times
}

// Whether each of these letters stands in one conversion of the format.
fn stand_once(letters: &[u8], format: &str) -> bool
    ensures { result ≡ list_all (λ letter. times_in letter [] format.now == 1) letters.now }
{
    letters.iter().all(|letter| times_in(*letter, format) == 1)
}

/// Whether, besides, each of the seven parts stands once.
pub(crate) fn is_read_format(format: &str) -> bool
    ensures { result ≡ is_read_format format.now }
{
    is_shown_format(format) && stand_once(PART_LETTERS, format)
}

//! From a line of hexadecimal to three lines that show its multihash.
ghost use Rattle.std.specs.Prelude.{◌≡◌, ℕ, ◌%◌, List, length, Some, IfOk, string_bytes};
ghost use Rattle.multihash.specs.Refusal.{Refusal};
ghost use Rattle.multihash.specs.Multihash.{pair_of};
ghost use Rattle.mh_show.specs.Shown.{shown, IsLine, NamesBytes, ShowsAs, IsRejectedAs};
ghost use Rattle.mh_show.specs.ShowError.{show_error_text};

use hex::FromHexError;
use multihash::Multihash;
use std::alloc::{AllocError, Global};
use std::fmt;

/// The error of showing a text.
#[derive(Debug, Drop)]
pub enum ShowError {
    /// The line is not an even number of hexadecimal digits.
    NotHex,
    /// The line's bytes are not one multihash with a digest of at most 64 bytes.
    Refused(multihash::Error),
    /// Out of memory.
    Memory,
}

/// Prints the text alone, whatever the width and precision.
impl fmt::Display for ShowError {
    ghost output = { λ e. Some (show_error_text e) };

    ghost styled_output = { λ e _. Some (show_error_text e) };

    fn fmt<W: fmt::Write>(&self, f: &mut fmt::Formatter<W>) -> fmt::Result {
        match self {
            ShowError::NotHex => f.write_str("not hexadecimal"),
            ShowError::Refused(e) => fmt::Display::fmt(e, f),
            ShowError::Memory => f.write_str("out of memory"),
        }
    }
}

impl std::error::Error for ShowError {}

impl From<FromHexError> for ShowError {
    ghost use Rattle.mh_show.specs.ShowError.{decoding_error};

    ghost from_gives = { λ cause e. e ≡ decoding_error cause };

    fn from(e: FromHexError) -> Self {
        match e {
            FromHexError::OutOfMemory => ShowError::Memory,
            _ => ShowError::NotHex,
        }
    }
}

impl From<multihash::Error> for ShowError {
    ghost use Rattle.mh_show.specs.declared.show.ShowError.{ShowError};

    ghost from_gives = { λ error e. e ≡ ShowError.Refused error };

    fn from(e: multihash::Error) -> Self {
        ShowError::Refused(e)
    }
}

impl From<AllocError> for ShowError {
    ghost use Rattle.mh_show.specs.declared.show.ShowError.{ShowError};

    ghost from_gives = { λ _ e. e ≡ ShowError.Memory };

    fn from(_e: AllocError) -> Self {
        ShowError::Memory
    }
}

/// Returns the three lines of the multihash that the text encodes in hexadecimal digits of either case: its
/// code and its size in decimal, and its digest in lowercase hexadecimal, or `-` if it is empty. One newline
/// at the end of the text is ignored.
///
/// # Errors
///
/// - [`ShowError::NotHex`] if the line is not an even number of hexadecimal digits.
/// - [`ShowError::Refused`] if its bytes are not one multihash with a digest of at most 64 bytes.
/// - [`ShowError::Memory`] if out of memory, but never for a line of odd length.
pub fn show(alloc: Global, text: &[u8]) -> Result<String, ShowError>
    ensures ok { IfOk result (λ s. ShowsAs text.now (string_bytes s)) }

    // Each error comes for its own reason alone.
    ensures not_hex { (line bytes : List ℕ) → result ≡ Err ShowError.NotHex → IsLine line text.now
        → ¬ (NamesBytes line bytes) }
    ensures rejected { (e : Refusal) → result ≡ Err (ShowError.Refused e) → IsRejectedAs text.now e }
    ensures odd { (line : List ℕ) → IsLine line text.now → length line % 2 ≡ 1
        → result ≡ Err ShowError.NotHex }
{
    let bytes = hex::decode(alloc, line_of(text))?;
    let multihash = Multihash::<64>::from_bytes(bytes.as_slice())?;
    let lines = lines_of(alloc, &multihash)?;
    Ok(lines)
}

// The text without the newline at its end, if there is one.
fn line_of(text: &[u8]) -> &[u8]
    ensures { IsLine result.now text.now }
{
    match text.split_last() {
        Some((b'\n', line)) => line,
        _ => text,
    }
}

fn lines_of(alloc: Global, multihash: &Multihash<64>) -> Result<String, AllocError>
    ensures { IfOk result (λ lines. string_bytes lines ≡ shown (pair_of multihash.now)) }
{
    let code = multihash.code();
    let size = multihash.size();
    let digits = hex::encode(alloc, multihash.digest())?;
    let digest = if digits.is_empty() {
        "-"
    } else {
        digits.as_str()
    };
    format!(in alloc; "code {code}\nsize {size}\ndigest {digest}\n")
}

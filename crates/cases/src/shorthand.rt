// Files in shorthand.
ghost use Rattle.std.specs.Prelude.{◌≤◌, length};

use std::alloc::{AllocError, Global};

// What stands before the first `stop`, and what behind it.
fn parted(text: &str, stop: char) -> (&str, &str)
    ensures { length result.1.now ≤ length text.now }
{
    text.split_once(stop).unwrap_or((text, ""))
}

// The number that these digits are.
fn number(digits: &str) -> usize {
    digits.bytes().fold(0, |n: usize, d| {
        n.saturating_mul(10)
            .saturating_add(d.saturating_sub(b'0') as usize)
    })
}

// The byte that one of shorthand stands for.
fn plain(b: u8) -> u8 {
    match b {
        b'|' => b'\n',
        b'~' => b'\t',
        _ => b,
    }
}

// A push for each byte: `extend` is dear for a short piece, and a piece is pushed many times.
fn push_piece(out: &mut Vec<u8>, piece: &str) -> Result<(), AllocError> {
    for b in piece.bytes() {
        out.push(plain(b))?;
    }
    Ok(())
}

fn push_times(out: &mut Vec<u8>, times: usize, piece: &str) -> Result<(), AllocError> {
    for _ in 0..times {
        push_piece(out, piece)?;
    }
    Ok(())
}

// The file that a line of shorthand stands for.
pub(crate) fn expanded(heap: Global, case: &str) -> Result<Vec<u8>, AllocError> {
    let mut out = Vec::new(heap);
    let mut rest = case;
    while let Some((front, times)) = rest.split_once('{') {
        let (digits, more) = parted(times, ':');
        let (piece, behind) = parted(more, '}');
        push_piece(&mut out, front)?;
        push_times(&mut out, number(digits), piece)?;
        rest = behind;
    }
    push_piece(&mut out, rest)?;
    Ok(out)
}

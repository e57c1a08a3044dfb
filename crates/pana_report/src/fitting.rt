//! Texts that are cut in the middle where they don't fit.
ghost use Rattle.std.specs.Prelude.{◌≡◌, ◌≤◌, ◌++◌, length, chars, encode_utf8_all, IfOk, OnOk, string_bytes};
ghost use Rattle.pana_report.specs.Fitted.{cut, fitted, longest_cut, share};

use crate::width::text_width;
use std::alloc::{AllocError, Global};

/// What stands in the place of the middle.
const ELLIPSIS: char = '…';

/// The least number of columns that a place may take, where it has so many.
pub(crate) const LEAST: usize = 12;

fn chars_of(alloc: Global, text: &str) -> Result<Vec<char>, AllocError>
    ensures { IfOk result (λ all. all.items ≡ chars text.now) }
{
    text.chars().collect(alloc)
}

/// Appends these characters.
fn push_all(text: &mut String, all: &[char]) -> Result<(), AllocError>
    ensures { OnOk result (string_bytes text.new ≡ string_bytes text.old ++ encode_utf8_all all.now) }
{
    for c in all {
        text.push(*c)?;
    }
    Ok(())
}

/// The text of these characters without its middle, so many of them left.
#[tactic(auto, using(crate::proofs::Cuts::cut_pieces))]
fn cut(alloc: Global, all: &[char], kept: usize) -> Result<String, AllocError>
    requires { kept ≤ length all.now }
    ensures { IfOk result (λ text. string_bytes text ≡ cut kept all.now) }
{
    let behind = kept / 2;
    let mut text = String::new(alloc);
    push_all(&mut text, &all[..kept - behind])?;
    text.push(ELLIPSIS)?;
    push_all(&mut text, &all[all.len() - behind..])?;
    Ok(text)
}

/// With at most so many of these characters left, as many as fit.
#[tactic(auto, using(crate::proofs::Cuts::first_cut))]
fn longest_cut(alloc: Global, all: &[char], most: usize, kept: usize) -> Result<String, AllocError>
    requires { kept ≤ length all.now }
    ensures { IfOk result (λ text. string_bytes text ≡ longest_cut most kept all.now) }
{
    let text = cut(alloc, all, kept)?;
    if kept == 0 || text_width(text.as_str()) <= most {
        return Ok(text);
    }
    longest_cut(alloc, all, most, kept - 1)
}

/// The text in at most so many columns of a terminal: as it is where it fits, else without its middle.
#[tactic(auto, unfolding(crate::specs::Fitted::fitted))]
pub(crate) fn fitted(alloc: Global, text: String, most: Option<usize>) -> Result<String, AllocError>
    ensures { IfOk result (λ short. string_bytes short ≡ fitted most (string_bytes text)) }
{
    let Some(most) = most else {
        return Ok(text);
    };
    if text_width(text.as_str()) <= most {
        return Ok(text);
    }
    let all = chars_of(alloc, text.as_str())?;
    let kept = most.min(all.len()).saturating_sub(1);
    longest_cut(alloc, all.as_slice(), most, kept)
}

/// How many columns a place may take, of those that are left for two places, where the other one takes so many.
pub(crate) fn share(left: usize, other: usize) -> usize
    ensures { result ≡ share left other }
{
    LEAST.max((left / 2).max(left.saturating_sub(other)))
}

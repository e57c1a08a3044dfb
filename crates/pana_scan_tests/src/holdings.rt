//! Holdings for the tests, read from an answer.

use pana_calls::HoldingList;
use pana_client::read_answer;
use std::alloc::Global;
use std::test::Fail;

/// The holdings in an answer.
pub fn held(alloc: Global, answer: &[u8]) -> Result<HoldingList, Fail> {
    match read_answer(alloc, answer)?.into_holdings() {
        Some(holdings) => Ok(holdings),
        None => Err(Fail::from("no holdings")),
    }
}

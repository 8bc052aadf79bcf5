use crate::case::numbers;
use crate::content::Documents;
use crate::hands::{MemHand, hand};
use anyhow::{Context, Result};
use fly_work::MemKeep;
use serde_json::Value;
use std::alloc::Global;

/// What a run in memory is driven over.
#[derive(Drop)]
pub struct Outside {
    pub hand: MemHand,
    pub keep: MemKeep,
    /// How many versions the worker looks back at most.
    pub lag: u32,
}

impl Outside {
    /// What a line says: its [`hand`]; the calls of the keeper that fail, numbered from 1, under `bad_keeps`; and the
    /// `lag`.
    pub fn read(alloc: Global, documents: &Documents, line: &Value) -> Result<Outside> {
        let bad_keeps = numbers(alloc, line.get("bad_keeps"))?;
        let lag = line.get("lag").and_then(Value::as_u64).unwrap_or(0);
        Ok(Outside {
            hand: hand(alloc, documents, line)?,
            keep: MemKeep::make(alloc, bad_keeps.into_vec()),
            lag: u32::try_from(lag).ok().context("a lag")?,
        })
    }
}

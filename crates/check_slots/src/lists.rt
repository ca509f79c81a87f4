//! Whether lists that lines name are those of bearers, or of asks.
use crate::fields::Fields;
use bearer_state::{Ask, Asks, Bearer, Bearers, Phase, Qos};
use pc_base::Kbps;
use std::alloc::{AllocError as NoMemory, Global};
use tft_codec::{BearerFilters, Filters};

/// Whether a session may have the bearers: their count, and of each its index, its life, and 0 with the
/// sequence number that it was asked for under, or 1 with its EBI.
pub fn are_bearers(alloc: Global, row: &Fields) -> Result<bool, NoMemory> {
    let mut bearers = Vec::new(alloc);
    for number in 0..row.octet(0) {
        bearers.push(bearer(alloc, row, 1 + 4 * usize::from(number)))?;
    }
    Ok(Bearers::of(bearers).is_some())
}

fn bearer(alloc: Global, row: &Fields, at: usize) -> Bearer {
    let value = at.saturating_add(3);
    Bearer {
        life: row.number(at.saturating_add(1)),
        phase: if row.number(at.saturating_add(2)) == 0 {
            Phase::Asked(row.word(value))
        } else {
            Phase::Active(row.octet(value))
        },
        qos: Qos {
            arp: 0,
            qci: 9,
            mbr_up: Kbps(0),
            mbr_down: Kbps(0),
            gbr_up: Kbps(0),
            gbr_down: Kbps(0),
        },
        enb: None,
        choice: BearerFilters {
            index: row.octet(at),
            filters: Filters::new(alloc),
        },
    }
}

/// Whether a request may ask for the bearers: their count and their EBIs.
pub fn are_asks(alloc: Global, row: &Fields) -> Result<bool, NoMemory> {
    let mut asks = Vec::new(alloc);
    for number in 0..row.octet(0) {
        asks.push(Ask {
            ebi: row.octet(1 + usize::from(number)),
            enb: None,
        })?;
    }
    Ok(Asks::of(asks).is_some())
}

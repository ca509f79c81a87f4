//! A copy of a session.
ghost use Rattle.std.specs.Prelude.{◌≡◌, IfOk};

use crate::NoMemory;
use bearer_state::{Bearer, Bearers, Kept, Session};
use std::alloc::Global;

fn bearer_of(alloc: Global, bearer: &Bearer) -> Result<Bearer, NoMemory>
    ensures { IfOk result (λ copy. copy ≡ bearer.now) }
{
    Ok(Bearer {
        life: bearer.life,
        phase: bearer.phase,
        qos: bearer.qos,
        enb: bearer.enb,
        choice: bearer.choice.try_clone()?,
    })
}

fn list_of(alloc: Global, bearers: &[Bearer]) -> Result<Vec<Bearer>, NoMemory>
    ensures { IfOk result (λ copy. copy.items ≡ bearers.now) }
{
    let mut list = Vec::new(alloc);
    for bearer in bearers {
        list.push(bearer_of(alloc, bearer)?)?;
    }
    Ok(list)
}

fn bearers_of(alloc: Global, bearers: &Bearers) -> Result<Bearers, NoMemory>
    ensures { IfOk result (λ copy. copy ≡ bearers.now) }
{
    let list = list_of(alloc, bearers.as_slice())?;
    match Bearers::of(list) {
        Some(copy) => Ok(copy),
        None => unreachable!(),
    }
}

fn kept_of(last: &Option<Kept>) -> Result<Option<Kept>, NoMemory>
    ensures { IfOk result (λ copy. copy ≡ last.now) }
{
    match last {
        Some(kept) => Ok(Some(Kept {
            kind: kept.kind,
            seq: kept.seq,
            reply: kept.reply.try_clone()?,
        })),
        None => Ok(None),
    }
}

/// A session like this one.
pub(crate) fn session_of(alloc: Global, session: &Session) -> Result<Session, NoMemory>
    ensures { IfOk result (λ copy. copy ≡ session.now) }
{
    session.known();
    Ok(Session {
        slot: session.slot,
        live: session.live,
        mme: session.mme,
        up: session.up,
        down: session.down,
        rates: session.rates,
        bearers: bearers_of(alloc, &session.bearers)?,
        lives: session.lives,
        last: kept_of(&session.last)?,
    })
}

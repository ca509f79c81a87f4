//! What a subscriber and a book keep by their types.
ghost use Rattle.std.specs.Prelude.{All, IfSome};
ghost use Rattle.pc_base.specs.Imsi.{IsImsi};
ghost use Rattle.record_codec.specs.Saved.{IsOwnBearer, IsPeer};
ghost use Rattle.save_command.specs.Known.{HasNumbers, IsKind, IsKnown};

use bearer_state::{Bearer, Kept, Session};
use pc_base::{Imsi, Peer};
use subscriber::Subscriber;

/// Each IMSI of a book has 6 to 15 digits.
pub(crate) fn known_imsis(imsis: &[Imsi])
    ensures { All IsImsi imsis.now }
{
    for imsi in imsis {
        let _digits = imsi.digits();
    }
}

/// What each subscriber keeps.
pub(crate) fn known_subscribers(subscribers: &[Subscriber])
    ensures { All IsKnown subscribers.now }
{
    for subscriber in subscribers {
        known(subscriber);
    }
}

fn known(subscriber: &Subscriber)
    ensures { IsKnown subscriber.now }
{
    let session = &subscriber.session;
    session.known();
    known_numbers(session);
    known_bearers(session.bearers.as_slice());
    subscriber.counters.known();
}

fn known_bearers(bearers: &[Bearer])
    ensures { All IsOwnBearer bearers.now }
{
    for bearer in bearers {
        known_bearer(bearer);
    }
}

fn known_bearer(bearer: &Bearer)
    ensures { IsOwnBearer bearer.now }
{
    let _filters = bearer.choice.filters.as_slice();
    known_peer(&bearer.enb);
}

fn known_peer(peer: &Option<Peer>)
    ensures { IfSome peer.now IsPeer }
{
    if let Some(peer) = peer {
        peer_numbers(peer);
    }
}

fn peer_numbers(peer: &Peer)
    ensures { IsPeer peer.now }
{
    let _teid = peer.teid.0;
    let _addr = peer.addr.0;
}

fn known_numbers(session: &Session)
    ensures { HasNumbers session.now }
{
    known_peer(&session.mme);
    known_kept(&session.last);
}

fn known_kept(last: &Option<Kept>)
    ensures { IfSome last.now IsKind }
{
    if let Some(kept) = last {
        kept_kind(kept);
    }
}

fn kept_kind(kept: &Kept)
    ensures { IsKind kept.now }
{
    let _kind = kept.kind;
}

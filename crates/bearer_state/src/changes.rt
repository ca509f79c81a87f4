//! The changes of a session that commands ask for. Each leaves the session as it was where memory
//! runs out.
ghost use Rattle.std.specs.Prelude.{◌≡◌, ◌≤◌, ◌-◌, ◌^◌, false, Some, None, IsTrue, OnOk, OnErr};
ghost use Rattle.bearer_state.specs.Bearer.{IsEbi, IsSeq};
ghost use Rattle.bearer_state.specs.Qos.{IsQos};
ghost use Rattle.bearer_state.specs.Session.{HasRoom, IsAmbr, IsKept};
ghost use Rattle.bearer_state.specs.Lookup.{has_active, least_free};
ghost use Rattle.bearer_state.specs.Changes.{attached, detached, rerated, with_mme, rebound, released};
ghost use Rattle.bearer_state.specs.Changes.{with_asked, granted, denied, refiltered, dropped, keeping};

use crate::{Ask, Bearer, Bearers, Kept, NoMemory, Phase, Qos, Session};
use pc_base::{Kbps, Peer};
use tft_codec::{BearerFilters, Filters};

impl Session {
    /// All bearers go, and the default bearer comes with the next life (TS 23.401, 5.3.2).
    pub fn attach(
        &mut self,
        mme: Option<Peer>,
        up: Kbps,
        down: Kbps,
        ebi: u8,
        qos: Qos,
        enb: Option<Peer>,
    ) -> Result<(), NoMemory>
        requires up { IsAmbr up }
        requires down { IsAmbr down }
        requires ebi { IsEbi ebi }
        requires qos { IsQos qos }
        requires room { HasRoom self.old }
        ensures attached { OnOk result (self.new ≡ attached self.old mme up down ebi qos enb) }
        ensures unchanged { OnErr result (self.new ≡ self.old) }
    {
        let alloc = self.bearers.allocator();
        let life = self.lives;
        let bearer = Bearer {
            life,
            phase: Phase::Active(ebi),
            qos,
            enb,
            choice: BearerFilters {
                index: 0,
                filters: Filters::new(alloc),
            },
        };
        let bearers = Bearers::only(alloc, bearer)?;
        self.live = true;
        self.mme = mme;
        self.bearers = bearers;
        self.lives = life + 1;
        self.set_rates(up, down);
        Ok(())
    }

    /// All bearers go, the MME too (5.3.8).
    pub fn detach(&mut self)
        ensures { self.new ≡ detached self.old }
    {
        self.live = false;
        self.mme = None;
        self.bearers = Bearers::new(self.bearers.allocator());
    }

    /// Other rates (5.4.2).
    pub fn set_rates(&mut self, up: Kbps, down: Kbps)
        requires up { IsAmbr up }
        requires down { IsAmbr down }
        requires room { self.old.rates ≤ 2 ^ 61 - 20 }
        ensures { self.new ≡ rerated self.old up down }
    {
        self.up = up;
        self.down = down;
        self.rates += 1;
    }

    /// Another MME, where one is given.
    pub fn set_mme(&mut self, mme: Option<Peer>)
        ensures { self.new ≡ with_mme self.old mme }
    {
        self.mme = mme.or(self.mme);
    }

    /// An answer is kept for repeats of its request.
    pub fn keep(&mut self, kept: Kept)
        requires { IsKept kept }
        ensures { self.new ≡ keeping self.old kept }
    {
        self.last = Some(kept);
    }

    /// Each active bearer takes the eNodeB of the ask for it, where there is one (5.4.7, 5.5.1).
    pub fn rebind(&mut self, asks: &[Ask])
        ensures { self.new ≡ rebound self.old asks.now }
    {
        self.bearers.rebind(asks);
    }

    /// No bearer has an eNodeB any more (5.3.5).
    pub fn release(&mut self)
        ensures { self.new ≡ released self.old }
    {
        self.bearers.unbind();
    }

    /// One bearer more, at the least free index and with the next life, that the MME is asked for
    /// under this sequence number (5.4.1).
    pub fn ask(&mut self, index: u8, seq: u32, qos: Qos, filters: Filters) -> Result<(), NoMemory>
        requires live { IsTrue self.old.live }
        requires index { least_free self.old.bearers ≡ Some index }
        requires seq { IsSeq seq }
        requires qos { IsQos qos }
        requires room { HasRoom self.old }
        ensures asked { OnOk result (self.new ≡ with_asked self.old index seq qos filters) }
        ensures unchanged { OnErr result (self.new ≡ self.old) }
    {
        self.bearers.place(Bearer {
            life: self.lives,
            phase: Phase::Asked(seq),
            qos,
            enb: None,
            choice: BearerFilters { index, filters },
        })?;
        self.lives += 1;
        Ok(())
    }

    /// The first bearer that was asked for under this sequence number is active from now on.
    pub fn grant(&mut self, seq: u32, ebi: u8, enb: Peer)
        requires ebi { IsEbi ebi }
        requires free { has_active self.old.bearers ebi ≡ false }
        ensures { self.new ≡ granted self.old seq ebi enb }
    {
        self.bearers.grant(seq, ebi, enb);
    }

    /// The first bearer that was asked for under this sequence number goes.
    pub fn deny(&mut self, seq: u32)
        ensures { self.new ≡ denied self.old seq }
    {
        self.bearers.remove_asked(seq);
    }

    /// Other filters for an active bearer (5.4.3).
    pub fn set_filters(&mut self, ebi: u8, filters: Filters)
        ensures { self.new ≡ refiltered self.old ebi filters }
    {
        self.bearers.set_filters(ebi, filters);
    }

    /// An active bearer goes that isn't the default one (5.4.4).
    pub fn drop_bearer(&mut self, ebi: u8)
        ensures { self.new ≡ dropped self.old ebi }
    {
        self.bearers.remove_dedicated(ebi);
    }
}

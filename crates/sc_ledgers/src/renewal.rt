//! The turns that were taken anew.

ghost use Rattle.std.specs.Prelude.{◌≡◌, ◌∷◌, ◌++◌, [], IfOk, OnErr, OnOk, length};
ghost use Rattle.sc_checkpoint.specs.Chains.{replaced, with_chain};
ghost use Rattle.sc_checkpoint.specs.Positions.{LieBelow};

use sc_checkpoint::{Segments, Spans};
use sc_papers::{Rejection, StudentNo};
use std::alloc::{AllocError, Global};
use std::marker::Model;

/// The turns that were taken anew: at which positions, and their segments, one behind the other in one log.
#[derive(Drop)]
pub struct Renewal {
    positions: Vec<usize>,
    spans: Spans,
    log: Vec<Rejection>,
}

impl Model for Renewal {
    ghost use Rattle.std.specs.Prelude.{◌≡◌, length};
    ghost use Rattle.sc_checkpoint.specs.Spans.{chains_in, AreWithin};
    ghost use Rattle.sc_ledgers.specs.Renewed.{Renewed};

    ghost Value = { Renewed };

    ghost view = { λ r. record { positions = r.positions.items; chains = chains_in r.log.items r.spans } };

    ghost invariant = { λ r. AreWithin r.log.items r.spans × (length r.spans ≡ length r.positions.items) };
}

impl Renewal {
    /// None. The only error is a refused growth.
    pub fn new(alloc: Global) -> Result<Self, AllocError>
        ensures { IfOk result (λ renewal. renewal ≡ record { positions = []; chains = [] }) }
    {
        Ok(Renewal {
            positions: Vec::new(alloc),
            spans: Spans::with_room(alloc, 0)?,
            log: Vec::new(alloc),
        })
    }

    /// One turn more: at this position, of this student. After a refused growth the renewal is to be given up.
    pub fn push(
        &mut self,
        position: usize,
        student: StudentNo,
        chain: &[Rejection],
    ) -> Result<(), AllocError>
        ensures positions { OnOk result (self.new.positions ≡ self.old.positions ++ position ∷ []) }
        ensures chains { OnOk result (self.new.chains ≡ with_chain self.old.chains student chain.now) }
    {
        let start = self.log.len();
        self.positions.reserve(1)?;
        self.log.extend_from_slice(chain)?;
        self.spans.push(student, self.log.as_slice(), start)?;
        self.positions.push_reserved(position);
        Ok(())
    }

    /// Puts the segments of the turns that were taken anew into the place of those that they had. A refused growth changes nothing.
    pub fn put_in(&self, segments: &mut Segments) -> Result<(), AllocError>
        requires { LieBelow (length segments.old) self.now.positions }
        ensures replaced { OnOk result (segments.new ≡ replaced segments.old self.now.positions self.now.chains) }
        ensures unchanged { OnErr result (segments.new ≡ segments.old) }
    {
        let positions = self.positions.as_slice();
        segments.replace(positions, &self.spans, self.log.as_slice())?;
        Ok(())
    }
}

//! The edges from the operations of a session to the next ones.
ghost use Rattle.std.specs.Prelude.{IfNone, IfSome, List, OnOk, length, ◌+◌, ◌≡◌, ◌<◌, ◌≤◌, ℕ};
ghost use Rattle.history_model.specs.Operations.{IsHistory};
ghost use Rattle.reg_levels.specs.Clusters.Places.{AreFew, IsByCall};
ghost use Rattle.reg_levels.specs.declared.clusters.table.ClusterEnds.{ClusterEnds as AnEnds};
ghost use Rattle.reg_levels.specs.LevelGraph.{Extends, IsInSession, IsLevelGraph, JoinsNext, SessionsReach};
ghost use Rattle.reg_levels.specs.Levels.{IsOfSessions};

use crate::asked::is_lasting;
use crate::graph::{LevelGraph, PlacePair};
use crate::order_graph::Edge;
use history_model::{Guarantee, Operation};
use std::alloc::{AllocError, Global};
use std::collections::HashMap;

impl LevelGraph {
    /// Adds an edge to the cluster of each operation from that of the last one of its session that all
    /// later ones must come after.
    pub(crate) fn add_sessions(
        &mut self,
        alloc: Global,
        ops: &[Operation],
        numbers: &[Option<u32>],
        guarantee: Guarantee,
    ) -> Result<(), AllocError>
        requires history { IsHistory ops.now }
        requires by_call { IsByCall ops.now }
        requires few { AreFew ops.now }
        requires places { length numbers.now ≡ length ops.now }
        requires sessions { IsOfSessions guarantee }
        ensures graph { OnOk result ((clusters : List AnEnds) (calls : List ℕ)
            → IsLevelGraph guarantee ops.now clusters numbers.now calls self.old
            → IsLevelGraph guarantee ops.now clusters numbers.now calls self.new) }
        ensures extends { OnOk result (Extends self.old.edges.items self.new.edges.items) }
        ensures reaches { OnOk result (SessionsReach guarantee ops.now numbers.now (length ops.now)
            self.new.edges.items) }
        ensures longer { OnOk result (length self.new.edges.items
            ≤ length self.old.edges.items + length ops.now) }
    {
        let mut latest = HashMap::new(alloc);
        for place in 0..ops.len() as u32 {
            if let Some(session) = session_at(ops, numbers, place) {
                let earlier = latest.get(&session).copied();
                self.join_next(numbers, earlier, place)?;
                if is_lasting(guarantee, &ops[place as usize]) {
                    latest.insert(session, place)?;
                }
            }
        }
        Ok(())
    }

    /// Adds an edge from the cluster of the earlier operation, if there is one, to that of the one at a
    /// place, if that is another.
    fn join_next(
        &mut self,
        numbers: &[Option<u32>],
        earlier: Option<u32>,
        place: u32,
    ) -> Result<(), AllocError>
        requires within { place < length numbers.now }
        requires earlier { IfSome earlier (λ p. p < length numbers.now) }
        ensures { OnOk result (JoinsNext numbers.now earlier place self.old self.new) }
    {
        let Some(before) = earlier else {
            return Ok(());
        };
        let (Some(from), Some(to)) = (numbers[before as usize], numbers[place as usize]) else {
            return Ok(());
        };
        if from != to {
            self.join(
                Edge { from, to },
                PlacePair {
                    before,
                    after: place,
                },
            )?;
        }
        Ok(())
    }
}

/// The session of the operation at a place, if it has one and is in a cluster.
fn session_at(ops: &[Operation], numbers: &[Option<u32>], place: u32) -> Option<u32>
    requires places { length numbers.now ≡ length ops.now }
    requires within { place < length ops.now }
    ensures some { IfSome result (λ q. (y : ℕ) × IsInSession ops.now numbers.now q place y) }
    ensures none { IfNone result ((q y : ℕ) → IsInSession ops.now numbers.now q place y → ⊥) }
{
    numbers[place as usize]?;
    ops[place as usize].process
}

//! The chain of the writes by their calls, which stands for real time.
ghost use Rattle.std.specs.Prelude.{IfOk, List, OnOk, Option, length, slice_get, ◌+◌, ◌*◌, ◌≡◌, ◌<◌, ◌≤◌};
ghost use Rattle.std.specs.Prelude.{◌^◌, ℕ, true};
ghost use Rattle.history_model.specs.declared.guarantee.Guarantee.{Guarantee as AGuarantee};
ghost use Rattle.history_model.specs.declared.operation.Operation.{Operation as AnOperation};
ghost use Rattle.reg_levels.specs.Clusters.Table.{IsClusterTable};
ghost use Rattle.reg_levels.specs.declared.clusters.table.ClusterEnds.{ClusterEnds as AnEnds};
ghost use Rattle.reg_levels.specs.LevelGraph.{AreWriteCalls, ChainReaches, EntriesReach, Extends};
ghost use Rattle.reg_levels.specs.LevelGraph.{IsLevelGraph, TimesReach};
ghost use Rattle.reg_levels.specs.Levels.{keeps_time as times};

use crate::asked::keeps_time;
use crate::clusters::{ClusterEnds, ClusterTable};
use crate::graph::{LevelGraph, PlacePair};
use crate::order_graph::Edge;
use history_model::{Guarantee, Operation};
use std::alloc::{AllocError, Global};

/// An edge of the chain has no pair.
const NO_PAIR: PlacePair = PlacePair {
    before: 0,
    after: 0,
};

/// The calls of the clusters' writes.
pub(crate) fn write_calls(
    alloc: Global,
    ops: &[Operation],
    table: &ClusterTable,
) -> Result<Vec<u32>, AllocError>
    requires table { IsClusterTable ops.now table.now.clusters.items table.now.numbers.items }
    ensures { IfOk result (λ calls. AreWriteCalls ops.now table.now.clusters.items calls.items) }
{
    let mut calls = Vec::with_capacity(alloc, table.clusters.len())?;
    for cluster in &table.clusters {
        calls.push(ops[cluster.write as usize].call)?;
    }
    Ok(calls)
}

/// The place of the first call after a time, or how many calls there are.
fn first_after(calls: &[u32], time: u32) -> usize
    requires { (j k m n : ℕ) → j < k → slice_get calls.now j ≡ Some m
        → slice_get calls.now k ≡ Some n → m < n }
    ensures within { result ≤ length calls.now }
    ensures before { (k n : ℕ) → k < result → slice_get calls.now k ≡ Some n → n ≤ time }
    ensures after { (n : ℕ) → slice_get calls.now result ≡ Some n → time < n }
{
    let mut low = 0;
    let mut high = calls.len();
    while low < high {
        let middle = low + (high - low) / 2;
        if calls[middle] <= time {
            low = middle + 1;
        } else {
            high = middle;
        }
    }
    low
}

impl LevelGraph {
    /// Adds what stands for real time, if writes keep it.
    pub(crate) fn add_times(
        &mut self,
        guarantee: Guarantee,
        clusters: &[ClusterEnds],
        calls: &[u32],
    ) -> Result<(), AllocError>
        requires few { 2 * length clusters.now < 2 ^ 32 }
        requires count { length calls.now ≡ length clusters.now }
        requires ascending { (j k m n : ℕ) → j < k → slice_get calls.now j ≡ Some m
            → slice_get calls.now k ≡ Some n → m < n }
        ensures graph { OnOk result ((ops : List AnOperation) (numbers : List (Option ℕ))
            → IsLevelGraph guarantee ops clusters.now numbers calls.now self.old
            → IsLevelGraph guarantee ops clusters.now numbers calls.now self.new) }
        ensures extends { OnOk result (Extends self.old.edges.items self.new.edges.items) }
        ensures reaches { OnOk result (times guarantee ≡ true
            → TimesReach clusters.now calls.now self.new.edges.items) }
        ensures longer { OnOk result (length self.new.edges.items
            ≤ length self.old.edges.items + 3 * length clusters.now) }
    {
        if !keeps_time(guarantee) {
            return Ok(());
        }
        self.add_chain(clusters.len() as u32)?;
        self.add_entries(clusters, calls)?;
        Ok(())
    }

    /// Adds the chain, with an edge from each call to the cluster of its write.
    pub(crate) fn add_chain(&mut self, count: u32) -> Result<(), AllocError>
        requires few { 2 * count < 2 ^ 32 }
        ensures graph { OnOk result ((guarantee : AGuarantee) (ops : List AnOperation)
            (clusters : List AnEnds) (numbers : List (Option ℕ)) (calls : List ℕ) → length clusters ≡ count
            → times guarantee ≡ true → IsLevelGraph guarantee ops clusters numbers calls self.old
            → IsLevelGraph guarantee ops clusters numbers calls self.new) }
        ensures extends { OnOk result (Extends self.old.edges.items self.new.edges.items) }
        ensures reaches { OnOk result (ChainReaches count self.new.edges.items) }
        ensures longer { OnOk result (length self.new.edges.items ≤ length self.old.edges.items + 2 * count) }
    {
        for place in 0..count {
            self.join(
                Edge {
                    from: count + place,
                    to: place,
                },
                NO_PAIR,
            )?;
            let next = Edge {
                from: count + place,
                to: count + place + 1,
            };
            self.join_if(place + 1 < count, next, NO_PAIR)?;
        }
        Ok(())
    }

    /// Adds an edge from each cluster into the chain, at the first write that is called after its first
    /// reply.
    pub(crate) fn add_entries(
        &mut self,
        clusters: &[ClusterEnds],
        calls: &[u32],
    ) -> Result<(), AllocError>
        requires few { 2 * length clusters.now < 2 ^ 32 }
        requires count { length calls.now ≡ length clusters.now }
        requires ascending { (j k m n : ℕ) → j < k → slice_get calls.now j ≡ Some m
            → slice_get calls.now k ≡ Some n → m < n }
        ensures graph { OnOk result ((guarantee : AGuarantee) (ops : List AnOperation)
            (numbers : List (Option ℕ)) → times guarantee ≡ true
            → IsLevelGraph guarantee ops clusters.now numbers calls.now self.old
            → IsLevelGraph guarantee ops clusters.now numbers calls.now self.new) }
        ensures extends { OnOk result (Extends self.old.edges.items self.new.edges.items) }
        ensures reaches { OnOk result (EntriesReach clusters.now calls.now self.new.edges.items) }
        ensures longer { OnOk result (length self.new.edges.items
            ≤ length self.old.edges.items + length clusters.now) }
    {
        let count = clusters.len() as u32;
        for number in 0..count {
            let place = first_after(calls, clusters[number as usize].first_reply) as u32;
            self.join_if(
                place < count,
                Edge {
                    from: number,
                    to: count + place,
                },
                NO_PAIR,
            )?;
        }
        Ok(())
    }
}

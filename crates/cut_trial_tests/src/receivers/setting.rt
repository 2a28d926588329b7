//! Trials as their receivers hear them.
ghost use Rattle.std.specs.Prelude.{ℕ, ◌^◌, ◌<◌, ◌≤◌, length, All, IsTrue};
ghost use Rattle.std.proofs.Props.{props};
ghost use Rattle.cut_rings.specs.Layout.{IsLayout};
ghost use Rattle.cut_rings.specs.Edges.{are_edges_of};
ghost use Rattle.cut_draws.specs.DeliveryOrder.{are_distinct};
ghost use Rattle.cut_detector.specs.Rule.{rule_in};
ghost use Rattle.cut_arrivals.specs.candidates.Candidates.{AreCandidatesOf};
ghost use Rattle.cut_arrivals.specs.candidates.KeyPlaces.{AreKeyPlaces};

use crate::receivers::drawn::{drawn_rings, drawn_roles};
use cut_alerts::{Roles, alerts};
use cut_arrivals::blocks::Blocks;
use cut_arrivals::candidates::{Candidates, KeyPlaces};
use cut_arrivals::receivers::Trial;
use cut_detector::Rule;
use cut_rings::{Edge, Rings};
use rand_chacha::ChaCha8Rng;
use rand_core::SeedableRng;
use rand_core::utils::NextWord;
use std::alloc::Global;
use std::process::Abort;
use std::test::Fail;

/// The seed of all keys.
pub(crate) const SEED: [u8; 32] = [9; 32];

/// The rings and alerts of trials, and the candidates and key places that these have.
#[derive(Drop)]
pub(crate) struct Setting {
    rule: Rule,
    rings: Rings,
    edges: Vec<Edge>,
    candidates: Candidates,
    key_places: KeyPlaces,
    ghost layout: { IsLayout rings },
    ghost within: { rule.k ≤ length rings.positions },
    ghost candidates_are: { AreCandidatesOf rings (rule_in rule) edges.items candidates } by { Prim.hlevel props },
    ghost inside: { (n : ℕ) → rings.nodes ≤ n → IsTrue (are_edges_of rule.k n edges.items) },
    ghost distinct: { IsTrue (are_distinct rule.k edges.items) },
    ghost few: { length edges.items ≤ 2 ^ 16 },
    ghost key_places_are: { AreKeyPlaces rule.k key_places.blocks.items edges.items key_places.key_places.items } by { Prim.hlevel props },
    ghost blocks: { All (λ block. block < 2 ^ 13) key_places.blocks.items },
}

/// A trial of this number, with the key places of all its alerts.
#[derive(Clone, Copy)]
pub(crate) struct Scene<'a> {
    pub number: u32,
    pub trial: Trial<'a>,
    pub key_places: &'a KeyPlaces,
    ghost inside: { (n : ℕ) → trial.rings.now.nodes ≤ n → IsTrue (are_edges_of trial.rule.k n trial.edges.now) },
    ghost distinct: { IsTrue (are_distinct trial.rule.k trial.edges.now) },
    ghost few: { length trial.edges.now ≤ 2 ^ 16 },
    ghost key_places_are: { AreKeyPlaces trial.rule.k key_places.now.blocks.items trial.edges.now
        key_places.now.key_places.items } by { Prim.hlevel props },
    ghost blocks: { All (λ block. block < 2 ^ 13) key_places.now.blocks.items },
}

impl Setting {
    /// Draws rings and roles.
    pub fn drawn(rt: &impl Abort, alloc: Global, rule: Rule, number: u32) -> Result<Setting, Fail> {
        let mut words = ChaCha8Rng::from_seed([7; 32]);
        words.set_stream(u64::from(number));
        let processes = 2 + (words.next_word() % 13) as u16;
        let rings = drawn_rings(alloc, &mut words, processes, rule.k)?;
        let roles = drawn_roles(alloc, &mut words, processes)?;
        Setting::new(rt, alloc, rule, rings, &roles)
    }

    /// These rings, and the alerts of these roles.
    pub fn new(
        rt: &impl Abort,
        alloc: Global,
        rule: Rule,
        rings: Rings,
        roles: &Roles,
    ) -> Result<Setting, Fail> {
        assert!(rt; rings.len() == rule.k && rings.nodes() == roles.nodes());
        let edges = alerts(alloc, &rings, rule.k, roles)?;
        assert!(rt; edges.len() <= 1000 && rings.nodes() <= 2048);
        let candidates = Candidates::of(alloc, &rings, rule, &edges)?;
        Ok(Setting {
            key_places: KeyPlaces::after(alloc, &candidates.blocks, rule.k, &edges)?,
            candidates,
            rule,
            rings,
            edges,
        })
    }

    /// The trial over these blocks, with this many copies.
    pub fn scene<'a>(&'a self, blocks: &'a Blocks, number: u32, copies: u8) -> Scene<'a>
        requires some { 1 ≤ copies }
        requires few { copies ≤ 4 }
    {
        Scene {
            number,
            trial: Trial {
                rings: &self.rings,
                rule: self.rule,
                edges: &self.edges,
                copies,
                blocks,
                candidates: &self.candidates,
            },
            key_places: &self.key_places,
        }
    }
}

ghost use Rattle.std.specs.Prelude.{◌≡◌, ◌<◌, ◌≤◌, ◌/◌, ◌↔◌, length, slice_get, Some, IfOk, IfErr, OnOk, IsErrOf};
ghost use Rattle.std.specs.Prelude.{IsTrue, Ok, false};
ghost use Rattle.std.specs.Str.{is_utf8};
ghost use Rattle.cut_plan.specs.declared.limits.TheConstants.{LONGEST_TEXT, MOST_NODES};
ghost use Rattle.serde_json.specs.View.{view};
ghost use Rattle.cut_plan.specs.Accepted.{limit_check, plan_of};
ghost use Rattle.cut_plan.specs.inside.Accepted.{IsChecked, values_in};
ghost use Rattle.cut_plan.specs.Canonical.{canonical_text, said};
ghost use Rattle.cut_plan.specs.inside.Look.{data_of};
ghost use Rattle.cut_plan.specs.Refusals.{IsFaultOfText};
ghost use Rattle.cut_plan.specs.declared.refusal.PlanFault.TheVariants.{Refused};
ghost use Rattle.cut_plan.specs.declared.refusal.Refusal.TheVariants.{NotJson, PlanTooLong};
ghost use Rattle.cut_plan.specs.Cells.{cells_of, largest, trial_count, IsCellOf};
ghost use Rattle.cut_plan.specs.Plan.{IsPlan};
ghost use Rattle.cut_plan.specs.Targets.{deaf_of, most_deaf, upgraded};
ghost use Rattle.cut_plan.specs.Failing.{version_of, faults_in, deaf_in};

use crate::combinations::combine;
use crate::field_checks::{dead_at, failing_at, seed_at};
use crate::limits::LONGEST_TEXT;
use crate::plan_lists::{Lists, check_together, largest, read_lists};
use crate::plan_text::read_text;
use crate::{Cell, Dead, Failing, Faults, Field, PlanFault, Refusal, Version};
use cut_fields::{bytes_value, fields_of, number_at, shorts_value, truth_at};
use serde_json::{Map, Value};
use std::alloc::{AllocError, Global};
use std::marker::Model;
use std::str;

/// An accepted plan. Contracts see it as the record of its thirteen named values.
#[derive(Debug, Drop)]
pub struct Plan {
    copies: u8,
    dead: Dead,
    f: Vec<u16>,
    failing: Failing,
    h: Vec<u8>,
    implicit: bool,
    k: Vec<u8>,
    l: Vec<u8>,
    liars: u16,
    links: u16,
    nodes: u16,
    repeats: u32,
    seed: [u8; 32],
    cells: Vec<Cell>,
}

impl Model for Plan {
    ghost use Rattle.cut_plan.specs.Values.{Values};

    ghost Value = { Values };

    ghost use Rattle.cut_plan.specs.inside.Inside.{values_of, IsPlanInside};

    ghost view = { values_of };

    ghost invariant = { IsPlanInside };
}

impl Plan {
    /// Reads a plan from a JSON text of at most 65,536 bytes. A refusal is the first fault of the text, in the order of
    /// the checks. Refusing a text that is too long or not UTF-8 takes no memory.
    #[tactic(auto, unfolding(crate::specs::Accepted::plan_of))]
    pub fn from_json(alloc: Global, text: &[u8]) -> Result<Plan, PlanFault>
        ensures ok { IfOk result (λ p. plan_of text.now ≡ Ok p) }
        ensures err { IfErr result (λ e. IsFaultOfText (plan_of text.now) e) }
        ensures too_long { LONGEST_TEXT < length text.now → IsErrOf result (Refused PlanTooLong) }
        ensures no_text { length text.now ≤ LONGEST_TEXT → is_utf8 text.now ≡ false → IsErrOf result (Refused NotJson) }
    {
        if text.len() > LONGEST_TEXT {
            return Err(PlanFault::Refused(Refusal::PlanTooLong));
        }
        match str::from_utf8(text) {
            Ok(text) => read_text(alloc, text),
            Err(_) => Err(PlanFault::Refused(Refusal::NotJson)),
        }
    }

    /// The plan of a JSON object whose fields were checked, once its lists are checked together.
    pub(crate) fn of_checked(alloc: Global, value: &Value) -> Result<Plan, PlanFault>
        requires { IsChecked (view value.now) }
        ensures ok { IfOk result (λ p. p ≡ values_in (view value.now)) }
        ensures within { OnOk result (limit_check (values_in (view value.now)) ≡ Ok tt) }
        ensures err { IfErr result (λ e. IsFaultOfText (limit_check (values_in (view value.now))) e) }
    {
        let lists = read_lists(alloc, value)?;
        check_together(&lists, value)?;
        let Lists { f, h, k, l } = lists;
        let cells = combine(
            alloc,
            k.as_slice(),
            h.as_slice(),
            l.as_slice(),
            f.as_slice(),
        )?;
        Ok(Plan {
            copies: number_at(value, Field::Copies) as u8,
            dead: dead_at(value),
            f,
            failing: failing_at(value),
            h,
            implicit: truth_at(value, Field::Implicit),
            k,
            l,
            liars: number_at(value, Field::Liars) as u16,
            links: number_at(value, Field::Links) as u16,
            nodes: number_at(value, Field::Nodes) as u16,
            repeats: number_at(value, Field::Repeats) as u32,
            seed: seed_at(value),
            cells,
        })
    }

    /// How many copies of each alert come to each receiver, 1 to 4.
    pub fn copies(&self) -> u8
        ensures value { result ≡ self.now.copies }
        ensures plan { IsPlan self.now }
    {
        self.copies
    }

    /// Whether observers that have crashed raise alerts.
    pub fn dead(&self) -> Dead
        ensures value { result ≡ self.now.dead }
        ensures plan { IsPlan self.now }
    {
        self.dead
    }

    /// The numbers of failed processes, strictly ascending, each below the number of processes.
    pub fn f(&self) -> &[u16]
        ensures value { result.now ≡ self.now.f }
        ensures plan { IsPlan self.now }
    {
        self.f.as_slice()
    }

    /// The way in which all targets fail, which a plan of version 1 names.
    pub fn faults(&self) -> Option<Faults>
        ensures value { result ≡ faults_in self.now.failing }
        ensures plan { IsPlan self.now }
    {
        self.failing.faults()
    }

    /// How many of a cell's targets are deaf, or all if it has fewer. Only a plan of version 2 says this number, at
    /// most 2048.
    pub fn deaf(&self) -> Option<u16>
        ensures value { result ≡ deaf_in self.now.failing }
        ensures plan { IsPlan self.now }
    {
        self.failing.deaf()
    }

    /// How many of `f` targets are deaf; the others have crashed. In a plan of version 1: none if targets crash, and
    /// all if they are deaf. In a plan of version 2: as many as it says, or all if there are fewer.
    pub fn deaf_of(&self, f: u16) -> u16
        ensures value { result ≡ deaf_of self.now f }
        ensures most { result ≤ f }
        ensures plan { IsPlan self.now }
    {
        match self.failing {
            Failing::Alike(Faults::Crash) => 0,
            Failing::Alike(Faults::Deaf) => f,
            Failing::Mixed(deaf) => deaf.min(f),
        }
    }

    /// The high watermarks, strictly ascending, each 1 to 32.
    pub fn h(&self) -> &[u8]
        ensures value { result.now ≡ self.now.h }
        ensures plan { IsPlan self.now }
    {
        self.h.as_slice()
    }

    /// Whether implicit alerts are added.
    pub fn implicit(&self) -> bool
        ensures value { result ≡ self.now.implicit }
        ensures plan { IsPlan self.now }
    {
        self.implicit
    }

    /// The numbers of rings, strictly ascending, each 1 to 32.
    pub fn k(&self) -> &[u8]
        ensures value { result.now ≡ self.now.k }
        ensures plan { IsPlan self.now }
    {
        self.k.as_slice()
    }

    /// The low watermarks, strictly ascending, each 1 to 32.
    pub fn l(&self) -> &[u8]
        ensures value { result.now ≡ self.now.l }
        ensures plan { IsPlan self.now }
    {
        self.l.as_slice()
    }

    /// How many processes raise false alerts, at most 2048.
    pub fn liars(&self) -> u16
        ensures value { result ≡ self.now.liars }
        ensures plan { IsPlan self.now }
    {
        self.liars
    }

    /// How many links are cut, at most 2048.
    pub fn links(&self) -> u16
        ensures value { result ≡ self.now.links }
        ensures plan { IsPlan self.now }
    {
        self.links
    }

    /// How many processes there are, 2 to 2048.
    pub fn nodes(&self) -> u16
        ensures value { result ≡ self.now.nodes }
        ensures plan { IsPlan self.now }
    {
        self.nodes
    }

    /// How many trials each cell has, 1 to 1,000,000.
    pub fn repeats(&self) -> u32
        ensures value { result ≡ self.now.repeats }
        ensures plan { IsPlan self.now }
    {
        self.repeats
    }

    /// The bytes from which rings and draws are made.
    pub fn seed(&self) -> [u8; 32]
        ensures value { result ≡ self.now.seed }
        ensures plan { IsPlan self.now }
    {
        self.seed
    }

    /// The version of the plan's format.
    pub fn version(&self) -> Version
        ensures value { result ≡ version_of self.now.failing }
        ensures plan { IsPlan self.now }
    {
        self.failing.version()
    }

    /// How many cells the plan has, 1 to 4096.
    pub fn cells(&self) -> u32
        ensures value { result ≡ length (cells_of self.now) }
        ensures plan { IsPlan self.now }
    {
        self.cells.len() as u32
    }

    /// A cell by its number, in the order k, h, l, f as the plan lists them, f changing fastest.
    pub fn cell(&self, i: u32) -> Cell
        requires { i < length (cells_of self.now) }
        ensures value { slice_get (cells_of self.now) i ≡ Some result }
        ensures plan { IsPlan self.now }
        ensures cell { IsCellOf self.now result }
    {
        self.cells[i as usize]
    }

    /// How many trials the plan has: cells times repeats, which is below 2^32.
    pub fn trials(&self) -> u32
        ensures value { result ≡ trial_count self.now }
        ensures plan { IsPlan self.now }
    {
        self.cells.len() as u32 * self.repeats
    }

    /// The number of the cell that a trial belongs to.
    pub fn cell_of(&self, trial: u32) -> u32
        requires { trial < trial_count self.now }
        ensures value { result ≡ trial / self.now.repeats }
        ensures in_range { result < length (cells_of self.now) }
        ensures plan { IsPlan self.now }
    {
        trial / self.repeats
    }

    /// A copy of the plan.
    pub fn try_clone(&self, alloc: Global) -> Result<Plan, AllocError>
        ensures value { IfOk result (λ p. p ≡ self.now) }
    {
        Ok(Plan {
            copies: self.copies,
            dead: self.dead,
            f: Vec::from_slice(alloc, self.f.as_slice())?,
            failing: self.failing,
            h: Vec::from_slice(alloc, self.h.as_slice())?,
            implicit: self.implicit,
            k: Vec::from_slice(alloc, self.k.as_slice())?,
            l: Vec::from_slice(alloc, self.l.as_slice())?,
            liars: self.liars,
            links: self.links,
            nodes: self.nodes,
            repeats: self.repeats,
            seed: self.seed,
            cells: Vec::from_slice(alloc, self.cells.as_slice())?,
        })
    }

    /// The plan of version 2 whose targets fail in the same way. Every trial has the same outcome, except for the
    /// number that version 1 lacks. If targets crash, none is deaf; if they are deaf, as many are as the greatest
    /// number of failed processes. A plan of version 2 is copied.
    pub fn upgrade(&self, alloc: Global) -> Result<Plan, AllocError>
        ensures value { IfOk result (λ p. p ≡ upgraded self.now) }
    {
        let mut plan = self.try_clone(alloc)?;
        plan.failing = Failing::Mixed(self.most_deaf());
        Ok(plan)
    }

    /// The number of deaf targets by which the targets of every cell fail as they do. In a plan of version 1 it is how
    /// many are deaf in the cell with the most failed processes.
    fn most_deaf(&self) -> u16
        ensures value { result ≡ most_deaf self.now.failing self.now.f }
        ensures most { result ≤ MOST_NODES }
    {
        match self.failing {
            Failing::Alike(_) => self.deaf_of(self.most_failed()),
            Failing::Mixed(deaf) => deaf,
        }
    }

    /// The greatest number of failed processes.
    fn most_failed(&self) -> u16
        ensures value { result ≡ largest self.now.f }
        ensures most { result ≤ MOST_NODES }
    {
        largest(self.f.as_slice())
    }

    /// Whether two plans are the same: whether their canonical texts are equal.
    pub fn same(&self, other: &Plan) -> bool
        ensures values { IsTrue result ↔ (self.now ≡ other.now) }
        ensures texts { IsTrue result ↔ (canonical_text self.now ≡ canonical_text other.now) }
    {
        self.has_values_of(other)
    }

    /// Whether each value of two plans is the same.
    fn has_values_of(&self, other: &Plan) -> bool
        ensures values { IsTrue result ↔ (self.now ≡ other.now) }
        ensures plan { IsPlan self.now }
        ensures other_plan { IsPlan other.now }
    {
        self.copies == other.copies
            && self.dead == other.dead
            && self.f.as_slice() == other.f.as_slice()
            && self.failing == other.failing
            && self.h.as_slice() == other.h.as_slice()
            && self.implicit == other.implicit
            && self.k.as_slice() == other.k.as_slice()
            && self.l.as_slice() == other.l.as_slice()
            && self.liars == other.liars
            && self.links == other.links
            && self.nodes == other.nodes
            && self.repeats == other.repeats
            && self.seed == other.seed
    }

    /// The canonical text of the plan: compact JSON, keys in byte order, the seed in lower-case digits. Two plans are
    /// the same if their texts are equal.
    pub fn canonical(&self, alloc: Global) -> Result<Vec<u8>, AllocError>
        ensures text { IfOk result (λ t. t.items ≡ canonical_text self.now) }
    {
        self.to_value(alloc)?.to_vec(alloc)
    }

    /// The plan as a JSON object.
    fn to_value(&self, alloc: Global) -> Result<Value, AllocError>
        ensures value { IfOk result (λ value. view value ≡ data_of self.now) }
        ensures plan { IsPlan self.now }
    {
        let fields = fields_of(self.version());
        let mut members = Map::new(alloc);
        for field in &fields {
            let value = self.field_value(alloc, *field)?;
            serde_json::put(&mut members, alloc, field.name(), value)?;
        }
        Ok(Value::Object(members))
    }

    /// The JSON value of a field.
    fn field_value(&self, alloc: Global, field: Field) -> Result<Value, AllocError>
        ensures { IfOk result (λ value. view value ≡ said self.now field) }
    {
        match field {
            Field::Copies => Ok(Value::from(self.copies())),
            Field::Dead => Value::try_from_str(alloc, self.dead().word()),
            Field::Deaf => Ok(self.failing.deaf_value()),
            Field::F => shorts_value(alloc, self.f()),
            Field::Faults => self.failing.faults_value(alloc),
            Field::H => bytes_value(alloc, self.h()),
            Field::Implicit => Ok(Value::from(self.implicit())),
            Field::K => bytes_value(alloc, self.k()),
            Field::L => bytes_value(alloc, self.l()),
            Field::Liars => Ok(Value::from(self.liars())),
            Field::Links => Ok(Value::from(self.links())),
            Field::Nodes => Ok(Value::from(self.nodes())),
            Field::Repeats => Ok(Value::from(self.repeats())),
            Field::Seed => Ok(Value::from(hex::encode(alloc, &self.seed())?)),
            Field::Version => Ok(Value::from(self.version().number())),
        }
    }
}

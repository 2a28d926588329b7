ghost use Rattle.std.specs.Prelude.{◌≡◌, ◌+◌, ◌*◌, ◌++◌, ◌≤◌, [], ◌∷◌, length, take, if◌then◌else◌, ◌<◌, ◌^◌, Some};
ghost use Rattle.std.specs.Prelude.{None, IfOk, IsTrue};
ghost use Rattle.std.specs.List.{flat_map};
ghost use Rattle.cut_plan.specs.declared.limits.TheConstants.{LONGEST_TEXT};
ghost use Rattle.sha2.specs.Sha256.{sha256};
ghost use Rattle.cut_plan.specs.Canonical.{canonical_text};
ghost use Rattle.cut_plan.specs.Failing.{version_of};
ghost use Rattle.cut_fields.specs.declared.version.Version.TheVariants.{Two};
ghost use Rattle.cut_journal.specs.File.{closed_gate, header_digest, prefix_of, numbers_length};
ghost use Rattle.cut_journal.specs.inside.File.{has_digest, rest_of};
ghost use Rattle.cut_journal.specs.File.{slip_length, number_bytes, body_of};
ghost use Rattle.cut_journal.specs.Reading.{says_plan, has_magic, number_at, settled_at, slip_in, is_slip};
ghost use Rattle.cut_journal.specs.inside.Steps.{HasNumbers};
ghost use Rattle.cut_journal.specs.inside.Places.{gate_place};

use crate::first_bytes::length_in_header;
use crate::layout::{magic_of, numbers_length, slip_length};
use cut_ledger::Slip;
use cut_outcome::{Piece, Totals};
use cut_plan::{Plan, Version, laws};
use sha2::{Digest, Sha256};
use std::alloc::{AllocError, Global};
use std::marker::Model;

/// The byte that an open gate is.
pub(crate) const OPEN_GATE: u8 = 0xA5;

/// The byte that a closed gate is written as.
pub(crate) const CLOSED_GATE: u8 = 0;

/// The gate of a slip.
#[derive(Clone, Copy)]
pub(crate) struct Gate {
    /// How many slips stand before it.
    pub number: u64,
    /// Its place on the disk.
    pub place: u64,
}

/// A plan, and what a file of its study begins with. Contracts see the plan.
#[derive(Drop)]
pub(crate) struct FileHeader {
    plan: Plan,
    prefix: Vec<u8>,
    digest: [u8; 32],
}

impl Model for FileHeader {
    ghost use Rattle.std.specs.Prelude.{◌≡◌, ◌+◌, ◌≤◌, length};
    ghost use Rattle.cut_plan.specs.Values.{Values};

    ghost Value = { Values };

    ghost use Rattle.cut_plan.specs.Canonical.{canonical_text};
    ghost use Rattle.cut_plan.specs.declared.limits.TheConstants.{LONGEST_TEXT};
    ghost use Rattle.cut_journal.specs.File.{header_digest, prefix_of};

    ghost view = { λ s. s.plan };

    ghost invariant = { λ s.
        (s.prefix.items ≡ prefix_of s.plan)
        × (s.digest ≡ header_digest s.plan)
        × (length s.prefix.items ≡ length (canonical_text s.plan) + 45)
        × (length (canonical_text s.plan) ≤ LONGEST_TEXT) };
}

impl FileHeader {
    /// The header of a plan's file.
    pub fn of(alloc: Global, plan: &Plan) -> Result<FileHeader, AllocError>
        ensures { IfOk result (λ study. study ≡ plan.now) }
    {
        let text = plan.canonical(alloc)?;
        let length = text_length(plan, text.as_slice());
        let mut prefix = Vec::with_capacity(alloc, text.len() + 45)?;
        prefix.push(OPEN_GATE)?;
        prefix.extend_from_slice(magic_of(plan.version()).as_slice())?;
        prefix.extend_from_slice(length.to_be_bytes().as_slice())?;
        prefix.extend_from_slice(text.as_slice())?;
        let digest = digest_of(&prefix[1..]);
        prefix.extend_from_slice(digest.as_slice())?;
        let plan = plan.try_clone(alloc)?;
        Ok(FileHeader {
            plan,
            prefix,
            digest,
        })
    }

    /// The plan.
    pub fn plan(&self) -> &Plan
        ensures { result.now ≡ self.now }
    {
        &self.plan
    }

    /// The version of the plan.
    fn version(&self) -> Version
        ensures { result ≡ version_of self.now.failing }
    {
        self.plan.version()
    }

    /// The first bytes of its file, up to the gate of the first slip.
    pub fn prefix(&self) -> &[u8]
        ensures bytes { result.now ≡ prefix_of self.now }
        ensures long { length result.now ≡ length (canonical_text self.now) + 45 }
    {
        self.prefix.as_slice()
    }

    /// Its plan's text is no longer than a header can say.
    pub fn is_short(&self)
        ensures { length (canonical_text self.now) ≤ LONGEST_TEXT }
    {
        // For the proof: what always holds of a plan.
        let _ = &self.plan;
    }

    /// The file from byte 1 through the first slip's gate, which is still closed.
    pub fn rest(&self, alloc: Global) -> Result<Vec<u8>, AllocError>
        ensures { IfOk result (λ rest. rest.items ≡ rest_of self.now) }
    {
        let mut rest = Vec::from_slice(alloc, &self.prefix[1..])?;
        rest.push(CLOSED_GATE)?;
        Ok(rest)
    }

    /// The gate of its first slip.
    pub fn first_gate(&self) -> Gate
        ensures number { result.number ≡ 0 }
        ensures place { result.place ≡ gate_place self.now 0 }
        ensures short { result.place ≤ 65581 }
    {
        self.is_short();
        Gate {
            number: 0,
            place: self.prefix().len() as u64,
        }
    }

    /// How many bytes each of its slips has with its gate.
    pub fn slip_length(&self) -> u64
        ensures value { result ≡ slip_length (version_of self.now.failing) }
        ensures least { 105 ≤ result }
        ensures most { result ≤ 113 }
    {
        slip_length(self.version())
    }

    /// The text of its plan.
    fn text(&self) -> &[u8]
        ensures { result.now ≡ canonical_text self.now }
    {
        let prefix = self.prefix();
        &prefix[13..prefix.len() - 32]
    }

    /// Whether what a file begins with says the text of its plan.
    pub fn says_plan(&self, prefix: &[u8]) -> bool
        requires { length (canonical_text self.now) + 45 ≤ length prefix.now }
        ensures { result ≡ says_plan self.now prefix.now }
    {
        let text = self.text();
        let is_long = length_in_header(prefix) == text.len();
        if !is_long {
            return false;
        }
        &prefix[13..text.len() + 13] == text
    }

    /// Whether what a file begins with has the letters of its plan's version.
    pub fn has_magic(&self, prefix: &[u8]) -> bool
        requires { 9 ≤ length prefix.now }
        ensures { result ≡ has_magic self.now prefix.now }
    {
        &prefix[1..9] == magic_of(self.version()).as_slice()
    }

    /// The bytes of a slip after its gate, then the next gate, closed: as many bytes as a slip has, and then some
    /// unused ones.
    pub fn slip_bytes(&self, slip: Slip) -> [u8; 113]
        ensures bytes { take (slip_length (version_of self.now.failing)) result
            ≡ body_of self.now slip ++ closed_gate ∷ [] }
        ensures numbers { HasNumbers slip }
    {
        let numbers = number_bytes(slip);
        let length = numbers_length(self.version());
        let numbers = &numbers.as_flattened()[..length];
        let digest = self.slip_digest(numbers);
        let mut bytes = [CLOSED_GATE; 113];
        bytes[..length].copy_from_slice(numbers);
        bytes[length..length + 32].copy_from_slice(digest.as_slice());
        bytes
    }

    /// The slip that stands in the bytes after a gate, if they were written as one.
    pub fn slip_in(&self, body: &[u8]) -> Option<Slip>
        requires numbers { numbers_length (version_of self.now.failing) ≤ length body.now }
        requires nine { 72 ≤ length body.now }
        ensures { result ≡ (if is_slip self.now body.now
            then Some (slip_in (version_of self.now.failing) body.now) else None) }
    {
        if !self.is_slip(body) {
            return None;
        }
        let piece = Piece {
            first: number_at(body, 0) as u32,
            count: number_at(body, 1) as u32,
        };
        let totals = totals_in(self.version(), body);
        Some(Slip { piece, totals })
    }

    /// Whether the bytes after a gate were written as a slip's.
    #[tactic(auto, unfolding(crate::specs::Reading::is_slip))]
    fn is_slip(&self, body: &[u8]) -> bool
        requires numbers { numbers_length (version_of self.now.failing) ≤ length body.now }
        requires nine { 72 ≤ length body.now }
        ensures value { result ≡ is_slip self.now body.now }
        ensures small { IsTrue result → (number_at body.now 0 < 2 ^ 32) × (number_at body.now 1 < 2 ^ 32) }
    {
        self.has_digest(body) && number_at(body, 0) < 1 << 32 && number_at(body, 1) < 1 << 32
    }

    /// Whether the digest after a slip's numbers is theirs.
    fn has_digest(&self, body: &[u8]) -> bool
        requires { numbers_length (version_of self.now.failing) ≤ length body.now }
        ensures { result ≡ has_digest self.now body.now }
    {
        let length = numbers_length(self.version());
        let digest = self.slip_digest(&body[..length]);
        digest.as_slice() == &body[length..]
    }

    /// The digest of a slip's numbers, as they are written.
    fn slip_digest(&self, numbers: &[u8]) -> [u8; 32]
        ensures digest { result ≡ sha256 (header_digest self.now ++ numbers.now) }
    {
        let mut hasher = Sha256::new();
        hasher.update(self.digest.as_slice());
        hasher.update(numbers);
        hasher.finalize()
    }
}

/// The length of a plan's text, as a header has it.
fn text_length(plan: &Plan, text: &[u8]) -> u32
    requires { text.now ≡ canonical_text plan.now }
    ensures value { result ≡ length (canonical_text plan.now) }
    ensures short { result ≤ LONGEST_TEXT }
{
    laws::canonical_text_reads_back();
    plan.cells();
    text.len() as u32
}

/// The SHA-256 digest of some bytes (FIPS 180-4), by which a file says that its header is whole, and a server names the
/// files of its studies.
pub fn digest_of(bytes: &[u8]) -> [u8; 32]
    ensures { result ≡ sha256 bytes.now }
{
    let mut hasher = Sha256::new();
    hasher.update(bytes);
    hasher.finalize()
}

/// The ten numbers of a slip, each as it is written. Version 1 writes the first nine.
fn number_bytes(slip: Slip) -> [[u8; 8]; 10]
    ensures bytes { flat_map (λ bytes. bytes) result ≡ number_bytes Two slip }
    ensures numbers { HasNumbers slip }
{
    let Slip { piece, totals } = slip;
    [
        u64::from(piece.first).to_be_bytes(),
        u64::from(piece.count).to_be_bytes(),
        totals.receivers.to_be_bytes(),
        totals.conflicts.to_be_bytes(),
        totals.silent.to_be_bytes(),
        totals.extra.to_be_bytes(),
        totals.votes.to_be_bytes(),
        totals.decided.to_be_bytes(),
        totals.right.to_be_bytes(),
        totals.settled.to_be_bytes(),
    ]
}

/// The sums of a slip.
fn totals_in(version: Version, body: &[u8]) -> Totals
    requires numbers { numbers_length version ≤ length body.now }
    requires nine { 72 ≤ length body.now }
    ensures { result ≡ (slip_in version body.now).totals }
{
    Totals {
        receivers: number_at(body, 2),
        conflicts: number_at(body, 3),
        silent: number_at(body, 4),
        extra: number_at(body, 5),
        votes: number_at(body, 6),
        decided: number_at(body, 7),
        right: number_at(body, 8),
        settled: settled_in(version, body),
    }
}

/// The sum that slips of version 1 don't have.
fn settled_in(version: Version, body: &[u8]) -> u64
    requires { numbers_length version ≤ length body.now }
    ensures { result ≡ settled_at version body.now }
{
    match version {
        Version::One => 0,
        Version::Two => number_at(body, 9),
    }
}

/// One of the numbers of a slip.
fn number_at(body: &[u8], index: usize) -> u64
    requires { 8 * index + 8 ≤ length body.now }
    ensures { result ≡ number_at body.now index }
{
    let mut bytes = [0; 8];
    bytes.copy_from_slice(&body[8 * index..8 * index + 8]);
    u64::from_be_bytes(bytes)
}

ghost use Rattle.std.specs.Prelude.{◌≡◌, ◌==◌, ◌++◌, nat_le, map, count_by, IfOk};
ghost use Rattle.std.specs.List.{find, range_with_len};
ghost use Rattle.cut_alerts.specs.Given.{times_named};
ghost use Rattle.cut_alerts.specs.inside.Given.{is_legal, are_below, are_sources, are_links, are_named_once};
ghost use Rattle.cut_alerts.specs.Given.{given_role};

use crate::Role;
use std::alloc::{AllocError, Global};

/// Lists of the processes that are not healthy.
#[derive(Clone, Copy)]
pub(crate) struct GivenLists<'a> {
    /// The targets that have crashed.
    pub crashed: &'a [u16],
    /// The targets that are deaf.
    pub deaf: &'a [u16],
    /// The liars.
    pub liars: &'a [u16],
    /// The cut links, each from its source to another process.
    pub links: &'a [(u16, u16)],
}

impl GivenLists<'_> {
    /// Whether they give each of the first `nodes` processes one role.
    pub(crate) fn are_legal(&self, nodes: u16) -> bool
        ensures { result ≡ is_legal nodes (self.now.crashed.now ++ self.now.deaf.now) self.now.liars.now
            self.now.links.now }
    {
        self.have_targets_below(nodes)
            && are_below(nodes, self.liars)
            && are_sources(nodes, self.links)
            && self.name_each_once(nodes)
            && are_links(nodes, self.links)
    }

    /// Whether the crashed and the deaf are all of the first `nodes` processes.
    fn have_targets_below(&self, nodes: u16) -> bool
        ensures { result ≡ are_below nodes (self.now.crashed.now ++ self.now.deaf.now) }
    {
        are_below(nodes, self.crashed) && are_below(nodes, self.deaf)
    }

    /// Whether none of the first `nodes` processes is named twice.
    fn name_each_once(&self, nodes: u16) -> bool
        ensures { result ≡ are_named_once nodes (self.now.crashed.now ++ self.now.deaf.now) self.now.liars.now
            self.now.links.now }
    {
        (0..nodes).all(|process| self.name_once(process))
    }

    /// Whether a process is named at most once.
    fn name_once(&self, process: u16) -> bool
        ensures { result ≡ nat_le (times_named (self.now.crashed.now ++ self.now.deaf.now) self.now.liars.now
            self.now.links.now process) 1 }
    {
        let as_target = times_in(process, self.crashed).saturating_add(times_in(
            process, self.deaf,
        ));
        let as_liar = times_in(process, self.liars);
        let as_source = times_as_source(process, self.links);
        as_target.saturating_add(as_liar).saturating_add(as_source) <= 1
    }

    /// The roles that they give, if they are legal.
    pub(crate) fn roles(&self, alloc: Global, nodes: u16) -> Result<Vec<Role>, AllocError>
        ensures { IfOk result (λ roles. roles.items ≡ map (λ p. given_role self.now.crashed.now self.now.deaf.now
            self.now.liars.now self.now.links.now p) (range_with_len 0 nodes)) }
    {
        (0..nodes)
            .map(|process| self.role_of(process))
            .collect(alloc)
    }

    /// The role that they give a process.
    fn role_of(&self, process: u16) -> Role
        ensures { result ≡ given_role self.now.crashed.now self.now.deaf.now self.now.liars.now self.now.links.now
            process }
    {
        if self.crashed.contains(&process) {
            Role::Crashed
        } else if self.deaf.contains(&process) {
            Role::Deaf
        } else if self.liars.contains(&process) {
            Role::Liar
        } else {
            match link_from(self.links, process) {
                Some((_, to)) => Role::LinkSource(to),
                None => Role::Healthy,
            }
        }
    }
}

/// Whether these are all of the first `nodes` processes.
fn are_below(nodes: u16, processes: &[u16]) -> bool
    ensures { result ≡ are_below nodes processes.now }
{
    processes.iter().all(|process| *process < nodes)
}

/// Whether these links come from the first `nodes` processes.
fn are_sources(nodes: u16, links: &[(u16, u16)]) -> bool
    ensures { result ≡ are_sources nodes links.now }
{
    links.iter().all(|(from, _)| *from < nodes)
}

/// Whether each of these links goes to another process, of the first `nodes`.
fn are_links(nodes: u16, links: &[(u16, u16)]) -> bool
    ensures { result ≡ are_links nodes links.now }
{
    links.iter().all(|(from, to)| *to < nodes && *from != *to)
}

/// How often a process stands in a list.
fn times_in(process: u16, processes: &[u16]) -> usize
    ensures { result ≡ count_by (λ other. other == process) processes.now }
{
    processes.iter().filter(|other| **other == process).count()
}

/// How many links a process is the source of.
fn times_as_source(process: u16, links: &[(u16, u16)]) -> usize
    ensures { result ≡ count_by (λ l. l.0 == process) links.now }
{
    links.iter().filter(|(from, _)| *from == process).count()
}

/// The link of which a process is the source.
fn link_from(links: &[(u16, u16)], process: u16) -> Option<(u16, u16)>
    ensures { result ≡ find (λ l. l.0 == process) links.now }
{
    links.iter().copied().find(|link| link.0 == process)
}

ghost use Rattle.std.specs.Prelude.{◌≡◌, ◌<◌, ◌↔◌, ◌++◌, ◌⊎◌, [], length, IfOk, OnOk, OnErr, IsErrOf};
ghost use Rattle.cut_plan.specs.Cells.{IsCellOf};
ghost use Rattle.cut_draws.specs.ProcessOrder.{IsProcessOrder};
ghost use Rattle.cut_alerts.specs.Assignment.{role_at, is_target, is_cut};
ghost use Rattle.cut_alerts.specs.Drawn.{drawn, ranked_role};
ghost use Rattle.cut_alerts.specs.Given.{given, given_mixed, AreLegalLists};

use crate::given::GivenLists;
use crate::{Role, RolesFault};
use cut_draws::{Draws, ProcessOrder};
use cut_plan::{Cell, Dead, Faults, Plan};
use cut_rings::Rings;
use std::alloc::{AllocError, Global};
use std::marker::Model;

/// The roles of all processes in a trial. Contracts see each process's role, and whether crashed
/// observers raise alerts.
#[derive(Debug, Drop)]
pub struct Roles {
    roles: Vec<Role>,
    dead: Dead,
}

impl Model for Roles {
    ghost use Rattle.cut_alerts.specs.Assignment.{Assignment};

    ghost Value = { Assignment };

    ghost view = { λ r. record { roles = r.roles.items; dead = r.dead } };

    ghost use Rattle.std.specs.Prelude.{◌<◌, ◌^◌, length};

    ghost invariant = { λ r. length r.roles.items < 2 ^ 16 };
}

impl Roles {
    /// No roles yet.
    pub fn none(alloc: Global) -> Roles
        ensures { result.roles ≡ [] }
    {
        Roles {
            roles: Vec::new(alloc),
            dead: Dead::Silent,
        }
    }

    /// The roles that a trial of a cell draws: the processes of least rank by the trial's keys are the targets, of
    /// which the last `plan.deaf_of(cell.f)` are deaf while the others have crashed; the next ones are the liars, the
    /// next ones the sources of cut links (this project's profile).
    pub fn of_trial(
        alloc: Global,
        plan: &Plan,
        cell: Cell,
        draws: &mut Draws,
        rings: &Rings,
    ) -> Result<Roles, AllocError>
        requires cell { IsCellOf plan.now cell }
        requires nodes { rings.now.nodes ≡ plan.now.nodes }
        ensures drawn { IfOk result (λ r. r ≡ drawn plan.now cell.f draws.old rings.now) }
        ensures same { draws.new ≡ draws.old }
    {
        let mut roles = Roles::none(alloc);
        let mut order = ProcessOrder::new(alloc);
        roles.draw(plan, cell, draws, &mut order, rings)?;
        Ok(roles)
    }

    /// Puts the roles that a trial of a cell draws, as `of_trial` gives them, in place of other roles, in the memory
    /// that these and the order have. The order is left as that of the trial's processes. Fails only if memory runs
    /// out: the roles are as they were then, and the order is empty or that of the trial's processes.
    pub fn draw(
        &mut self,
        plan: &Plan,
        cell: Cell,
        draws: &mut Draws,
        order: &mut ProcessOrder,
        rings: &Rings,
    ) -> Result<(), AllocError>
        requires cell { IsCellOf plan.now cell }
        requires nodes { rings.now.nodes ≡ plan.now.nodes }
        ensures drawn { OnOk result (self.new ≡ drawn plan.now cell.f draws.old rings.now) }
        ensures err { OnErr result (self.new ≡ self.old) }
        ensures order { OnOk result (IsProcessOrder draws.old rings.now.nodes order.new) }
        ensures order_err { OnErr result
            ((order.new ≡ []) ⊎ IsProcessOrder draws.old rings.now.nodes order.new) }
        ensures same { draws.new ≡ draws.old }
    {
        let n = rings.nodes();
        draws.order_processes(order, n)?;
        self.roles.resize(usize::from(n), Role::Healthy)?;
        self.roles.fill(Role::Healthy);
        for rank in 0..n.min(cell.f + plan.liars() + plan.links()) {
            let process = order.get(usize::from(rank));
            self.roles[usize::from(process)] = ranked_role(plan, cell, rings, process, rank);
        }
        self.dead = plan.dead();
        Ok(())
    }

    /// The roles of `nodes` processes by lists: of the targets, which fail as `faults` says, of the liars, and of the
    /// cut links, each from its source to another process. All others are healthy. BadRole exactly if a process is not
    /// below `nodes`, where one is named twice among targets, liars and sources, or if a link has equal ends (this
    /// project's profile).
    pub fn given(
        alloc: Global,
        nodes: u16,
        targets: &[u16],
        liars: &[u16],
        links: &[(u16, u16)],
        faults: Faults,
        dead: Dead,
    ) -> Result<Roles, RolesFault>
        ensures given { IfOk result
            (λ r. r ≡ given nodes targets.now liars.now links.now faults dead) }
        ensures legal { OnOk result (AreLegalLists nodes targets.now liars.now links.now) }
        ensures bad_role { IsErrOf result RolesFault.BadRole
            ↔ ¬ AreLegalLists nodes targets.now liars.now links.now }
    {
        match faults {
            Faults::Crash => Roles::given_mixed(alloc, nodes, targets, &[], liars, links, dead),
            Faults::Deaf => Roles::given_mixed(alloc, nodes, &[], targets, liars, links, dead),
        }
    }

    /// The roles of `nodes` processes as `given` gives them, if the targets of one list have crashed and those of
    /// another are deaf. BadRole exactly where `given` answers it of the two lists together: a process that is in both
    /// is named twice.
    pub fn given_mixed(
        alloc: Global,
        nodes: u16,
        crashed: &[u16],
        deaf: &[u16],
        liars: &[u16],
        links: &[(u16, u16)],
        dead: Dead,
    ) -> Result<Roles, RolesFault>
        ensures given { IfOk result
            (λ r. r ≡ given_mixed nodes crashed.now deaf.now liars.now links.now dead) }
        ensures legal { OnOk result (AreLegalLists nodes (crashed.now ++ deaf.now) liars.now links.now) }
        ensures bad_role { IsErrOf result RolesFault.BadRole
            ↔ ¬ AreLegalLists nodes (crashed.now ++ deaf.now) liars.now links.now }
    {
        let lists = GivenLists {
            crashed,
            deaf,
            liars,
            links,
        };
        if !lists.are_legal(nodes) {
            return Err(RolesFault::BadRole);
        }
        let roles = lists.roles(alloc, nodes)?;
        Ok(Roles { roles, dead })
    }

    /// The role of a process.
    pub fn role(&self, process: u16) -> Role
        requires { process < length self.now.roles }
        ensures { result ≡ role_at self.now process }
    {
        self.roles[usize::from(process)]
    }

    /// Whether observers that have crashed raise alerts.
    pub fn dead(&self) -> Dead
        ensures { result ≡ self.now.dead }
    {
        self.dead
    }

    /// How many processes there are.
    pub fn nodes(&self) -> u16
        ensures { result ≡ length self.now.roles }
    {
        self.roles.len() as u16
    }

    /// Whether the link from one process to another is cut, in this direction.
    pub fn is_cut(&self, from: u16, to: u16) -> bool
        requires { from < length self.now.roles }
        ensures { result ≡ is_cut self.now from to }
    {
        match self.role(from) {
            Role::LinkSource(end) => end == to,
            _ => false,
        }
    }

    /// Whether a process is a target: whether it has crashed or is deaf.
    pub fn is_target(&self, process: u16) -> bool
        requires { process < length self.now.roles }
        ensures { result ≡ is_target self.now process }
    {
        match self.role(process) {
            Role::Crashed | Role::Deaf => true,
            _ => false,
        }
    }
}

/// The role of a process that has this rank among all.
fn ranked_role(plan: &Plan, cell: Cell, rings: &Rings, process: u16, rank: u16) -> Role
    requires process { process < rings.now.nodes }
    requires rings { 0 < length rings.now.positions }
    requires cell { IsCellOf plan.now cell }
    ensures { result ≡ ranked_role plan.now cell.f rings.now process rank }
{
    let crashed = cell.f - plan.deaf_of(cell.f);
    let liars_end = cell.f + plan.liars();
    let links_end = liars_end + plan.links();
    if rank < crashed {
        Role::Crashed
    } else if rank < cell.f {
        Role::Deaf
    } else if rank < liars_end {
        Role::Liar
    } else if rank < links_end {
        Role::LinkSource(rings.subject(0, process))
    } else {
        Role::Healthy
    }
}

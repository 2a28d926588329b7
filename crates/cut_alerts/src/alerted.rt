ghost use Rattle.std.specs.Prelude.{◌≡◌, ◌≤◌, ◌<◌, ◌↔◌, ◌++◌, ◌*◌, [], ℕ, length, map, filter, Contains, IfOk, OnOk};
ghost use Rattle.std.specs.Prelude.{OnErr, IsTrue, true, false};
ghost use Rattle.std.specs.List.Sorted.{IsStrictlyIncreasing};
ghost use Rattle.cut_rings.specs.Layout.{IsLayout};
ghost use Rattle.cut_rings.specs.Edges.{are_edges_of, edge_number, edges_in, set_of};
ghost use Rattle.cut_draws.specs.DeliveryOrder.{are_distinct};
ghost use Rattle.cut_alerts.specs.Alerted.{is_alerted, alert_list, edges_of, IsAlerted};
ghost use Rattle.cut_alerts.specs.inside.Suspects.{is_marked, AreSuspects, HasNoAlert};

use crate::{Role, Roles};
use cut_plan::{Dead, MOST_NODES};
use cut_rings::{Edge, Rings};
use std::alloc::{AllocError, Global};

/// How many processes there may be.
const PROCESSES: usize = MOST_NODES as usize;

/// Whether an edge is alerted: whether its observer raises an alert about its subject. Observers alert about failed
/// subjects as in the Rapid paper; what deaf observers, liars and cut links add is defined by this project.
pub fn is_alert(rings: &Rings, roles: &Roles, edge: Edge) -> bool
    requires ring { edge.ring < length rings.now.positions }
    requires subject { edge.subject < rings.now.nodes }
    requires nodes { length roles.now.roles ≡ rings.now.nodes }
    ensures { result ≡ is_alerted rings.now roles.now edge }
{
    let subject = edge.subject;
    let observer = rings.observer(edge.ring, subject);
    if roles.role(observer) == Role::Healthy && roles.role(subject) == Role::Healthy {
        return false;
    }
    let alive = roles.role(observer) != Role::Crashed;
    let is_cut = roles.is_cut(observer, subject) || roles.is_cut(subject, observer);
    (roles.is_target(subject) && (alive || roles.dead() == Dead::Speak))
        || roles.role(observer) == Role::Deaf
        || roles.role(observer) == Role::Liar
        || (is_cut && alive)
}

/// The alerted edges of the first `k` rings, in strictly ascending order of edge number.
pub fn alerts(alloc: Global, rings: &Rings, k: u8, roles: &Roles) -> Result<Vec<Edge>, AllocError>
    requires rings { k ≤ length rings.now.positions }
    requires nodes { length roles.now.roles ≡ rings.now.nodes }
    ensures value { IfOk result (λ edges. edges.items ≡ alert_list rings.now roles.now k) }
    ensures member { IfOk result (λ edges. (e : Edge) →
        Contains edges.items e ↔ IsAlerted rings.now roles.now k e) }
    ensures within { IfOk result
        (λ edges. (n : ℕ) → rings.now.nodes ≤ n → IsTrue (are_edges_of k n edges.items)) }
    ensures distinct { IfOk result (λ edges. IsTrue (are_distinct k edges.items)) }
    ensures ascending { IfOk result
        (λ edges. IsStrictlyIncreasing (map (λ e. edge_number k e) edges.items)) }
    ensures grouped { IfOk result
        (λ edges. edges.items ≡ edges_in k rings.now.nodes (set_of edges.items)) }
    ensures few { IfOk result (λ edges. length edges.items ≤ rings.now.nodes * k) }
{
    let mut edges = Vec::new(alloc);
    alerts_into(&mut edges, rings, k, roles)?;
    Ok(edges)
}

/// Puts the alerted edges of the first `k` rings into a list, as `alerts` gives them, in place of what it held. Fails
/// only if memory runs out, and the list is empty then.
pub fn alerts_into(
    edges: &mut Vec<Edge>,
    rings: &Rings,
    k: u8,
    roles: &Roles,
) -> Result<(), AllocError>
    requires rings { k ≤ length rings.now.positions }
    requires nodes { length roles.now.roles ≡ rings.now.nodes }
    ensures value { OnOk result (edges.new.items ≡ alert_list rings.now roles.now k) }
    ensures member { OnOk result ((e : Edge) →
        Contains edges.new.items e ↔ IsAlerted rings.now roles.now k e) }
    ensures within { OnOk result
        ((n : ℕ) → rings.now.nodes ≤ n → IsTrue (are_edges_of k n edges.new.items)) }
    ensures distinct { OnOk result (IsTrue (are_distinct k edges.new.items)) }
    ensures ascending { OnOk result
        (IsStrictlyIncreasing (map (λ e. edge_number k e) edges.new.items)) }
    ensures grouped { OnOk result
        (edges.new.items ≡ edges_in k rings.now.nodes (set_of edges.new.items)) }
    ensures few { OnOk result (length edges.new.items ≤ rings.now.nodes * k) }
    ensures err { OnErr result (edges.new.items ≡ []) }
{
    let filled = list_alerts(edges, rings, k, roles);
    if filled.is_err() {
        edges.clear();
    }
    filled
}

/// Replaces the content of a list by the alerted edges. After an error it is unspecified.
fn list_alerts(list: &mut Vec<Edge>, rings: &Rings, k: u8, roles: &Roles) -> Result<(), AllocError>
    requires rings { k ≤ length rings.now.positions }
    requires nodes { length roles.now.roles ≡ rings.now.nodes }
    ensures { OnOk result (list.new.items ≡ alert_list rings.now roles.now k) }
{
    list.clear();
    let nodes = rings.nodes();
    let suspects = suspects::<PROCESSES>(rings, k, roles);
    for subject in 0..nodes {
        if !suspects[usize::from(subject)] {
            continue;
        }
        push_alerts(list, rings, k, roles, subject)?;
    }
    Ok(())
}

/// Which processes alerts may be about: those that are not healthy, and those that such a process observes on one of
/// the first `k` rings. In a large cluster these are few.
fn suspects<const N: usize>(rings: &Rings, k: u8, roles: &Roles) -> [bool; N]
    requires rings { k ≤ length rings.now.positions }
    requires nodes { length roles.now.roles ≡ rings.now.nodes }
    requires room { rings.now.nodes ≤ N }
    ensures many { length result ≡ N }
    ensures others { (s : ℕ) → s < rings.now.nodes → is_marked result s ≡ false
        → HasNoAlert rings.now roles.now k s }
{
    let mut suspects = [false; N];
    for process in 0..rings.nodes() {
        if roles.role(process) == Role::Healthy {
            continue;
        }
        suspect(&mut suspects, rings, k, process);
    }
    suspects
}

/// Marks a process and those that it observes on the first `k` rings.
fn suspect(suspects: &mut [bool], rings: &Rings, k: u8, process: u16)
    requires rings { k ≤ length rings.now.positions }
    requires process { process < rings.now.nodes }
    requires room { rings.now.nodes ≤ length suspects.old }
    requires layout { IsLayout rings.now }
    ensures marked { AreSuspects rings.now k process suspects.new }
    ensures kept { (s : ℕ) → is_marked suspects.old s ≡ true → is_marked suspects.new s ≡ true }
    ensures many { length suspects.new ≡ length suspects.old }
{
    suspects[usize::from(process)] = true;
    for ring in 0..k {
        suspects[usize::from(rings.subject(ring, process))] = true;
    }
}

/// Adds the alerted edges of one subject, ring by ring.
fn push_alerts(
    edges: &mut Vec<Edge>,
    rings: &Rings,
    k: u8,
    roles: &Roles,
    subject: u16,
) -> Result<(), AllocError>
    requires rings { k ≤ length rings.now.positions }
    requires nodes { length roles.now.roles ≡ rings.now.nodes }
    requires subject { subject < rings.now.nodes }
    ensures { OnOk result (edges.new.items
        ≡ edges.old.items ++ filter (λ e. is_alerted rings.now roles.now e) (edges_of k subject)) }
{
    for ring in 0..k {
        let edge = Edge { ring, subject };
        if !is_alert(rings, roles, edge) {
            continue;
        }
        edges.push(edge)?;
    }
    Ok(())
}

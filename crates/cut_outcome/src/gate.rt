use crate::Piece;
use std::sync::Wait;

/// What the workers of a study call at each stage of their work. Contracts say nothing of what a gate does. By default
/// a stage does nothing.
pub trait Gate {
    /// Called between the draw of a piece and the work on it: the worker goes on when this returns.
    fn pass<R: Wait>(&self, _rt: &R, _piece: Piece) {}

    /// Called once a study is opened, before any worker works on it: it has `all` trials, of which `held` are held already.
    fn opened<R: Wait>(&self, _rt: &R, _held: u64, _all: u64) {}

    /// Called once the result of a piece is accepted. No lock of a hall is held meanwhile.
    fn accepted<R: Wait>(&self, _rt: &R, _piece: Piece) {}
}

/// The gate that does nothing: each of its calls returns at once.
#[derive(Clone, Copy, Debug)]
pub struct OpenGate;

impl Gate for OpenGate {}

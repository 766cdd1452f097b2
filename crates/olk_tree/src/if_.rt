//! `if`, `then` and `else`: what their validators hold.
use olk_reports::Location;

/// `if` with `then`: where `schema` accepts, `then_schema` is to accept too (JSON Schema 2020-12
/// Core, 10.2.2.1 and 10.2.2.2).
#[derive(Drop)]
pub struct IfThen<N> {
    pub schema: N,
    pub then_schema: N,
    pub location: Location,
}

/// `if` with `else`: where `schema` refuses, `else_schema` is to accept (JSON Schema 2020-12 Core,
/// 10.2.2.1 and 10.2.2.3).
#[derive(Drop)]
pub struct IfElse<N> {
    pub schema: N,
    pub else_schema: N,
    pub location: Location,
}

/// `if` with `then` and `else`: where `schema` accepts, `then_schema` is to accept, and else
/// `else_schema` (JSON Schema 2020-12 Core, 10.2.2).
#[derive(Drop)]
pub struct IfThenElse<N> {
    pub schema: N,
    pub then_schema: N,
    pub else_schema: N,
    pub location: Location,
}

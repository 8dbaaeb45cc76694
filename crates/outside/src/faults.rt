//! Faults of things outside. Each was counted by the thing that gave it.

/// A source gave a fault, which it counted.
#[derive(Clone, Copy, Debug, PartialEq, Eq)]
pub struct ReadFault;

/// A sink gave a fault, which it counted.
#[derive(Clone, Copy, Debug, PartialEq, Eq)]
pub struct WriteFault;

/// A host or a shelf gave a fault, which it counted.
#[derive(Clone, Copy, Debug, PartialEq, Eq)]
pub struct HostFault;

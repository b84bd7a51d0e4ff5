//! Laws of laboratories with NATs behind others.
ghost use Rattle.td_nested.specs.Nested.{DashIsFlat};

/// By the text `-` no NAT is behind another one. This is a law over all topologies.
pub fn dash_is_flat()
    ensures { DashIsFlat }
{}

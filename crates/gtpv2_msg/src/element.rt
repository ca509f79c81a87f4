use gtpv2_ie::Ie;

/// What stands in octets by its type and instance: an element where the type is one of the thirteen
/// and the octets are inside the type's grammar.
#[derive(Debug, Drop)]
pub struct ReadIe {
    pub kind: u8,
    pub instance: u8,
    pub element: Option<Ie>,
}

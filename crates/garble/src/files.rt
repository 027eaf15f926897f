// The files that a maker writes.

// Each as its bytes.
#[derive(Drop)]
pub struct Garbled {
    // for the notary: both keys of each of the opener's inputs, that of value 0 first
    pub notary: Vec<u8>,
    // the keys of the maker's own values
    pub maker: Vec<u8>,
    pub tables: Vec<u8>,
    pub meanings: Vec<u8>,
}

// A wire's coin and keys.

// A key (wire label): sixteen bytes, of which the last bit is the key's colour.
pub type Key = [u8; 16];

// What is drawn for a wire.
#[derive(Clone, Copy)]
pub struct WireKeys {
    // its coin (permute bit)
    pub coin: bool,
    // its key of colour 0
    pub zero: Key,
    // its key of colour 1
    pub one: Key,
}

// What a value's text says of its effects.
// How freely a value may be moved: a literal or a register, a bare name, anything else.
#[derive(Clone, Copy)]
pub enum Purity {
    Stable,
    Ident,
    Effectful,
}

// What a trimmed text is: an array, or something whose purity does not hang on its parts.
#[derive(Clone, Copy)]
pub enum Shape {
    Plain(Purity),
    Array,
}

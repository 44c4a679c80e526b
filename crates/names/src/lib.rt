// The names of registers, phis and temps.
#![tactic(auto)]

ghost use Rattle.std.specs.Prelude.{◌≡◌, ◌-◌, true, false, MatchOption, [], ◌∷◌, ◌++◌, ◌≤◌, length};
ghost use Rattle.lines.specs.Lf.{same};
ghost use Rattle.names.specs.Names.{is_digit, all_digits, read_number, decimal, reg_by, reg_of, phi_of, is_temp, reg_text, phi_text, reg_is, is_ident};
ghost use Rattle.names.specs.Inner.Names.{zeros, number_after};

// A register, a phi: numbers of their own, so that a table of one cannot be asked with another.
#[derive(Clone, Copy)]
pub struct Register(pub u64);

#[derive(Clone, Copy)]
pub struct Phi(pub u64);

// The number that at most so many digits are fits 64 bits, whatever they are.
const FEW: usize = 9;

// The number that a digit is.
fn digit(d: u8) -> Option<u64>
    ensures { MatchOption result (is_digit d ≡ false) (λ x. (is_digit d ≡ true) × (x ≡ d - 48) × (x ≤ 9)) }
{
    if d.is_ascii_digit() {
        Some((d - b'0') as u64)
    } else {
        None
    }
}

// The number that few digits are.
fn read_few(s: &[u8]) -> Option<u64>
    requires { length s.now ≤ 9 }
    ensures { result ≡ read_number s.now }
{
    if s.is_empty() {
        return None;
    }
    let mut v = 0;
    for &d in s {
        v = v * 10 + digit(d)?;
    }
    Some(v)
}

// The number that digits are, where it fits 64 bits.
fn read_many(s: &[u8]) -> Option<u64>
    ensures { result ≡ read_number s.now }
{
    if s.is_empty() {
        return None;
    }
    let mut v: u64 = 0;
    for &d in s {
        let x = digit(d)?;
        v = v.checked_mul(10)?.checked_add(x)?;
    }
    Some(v)
}

// The same; of few digits the number is not asked whether it fits.
pub fn read_number(s: &[u8]) -> Option<u64>
    ensures { result ≡ read_number s.now }
{
    if s.len() <= FEW {
        return read_few(s);
    }
    read_many(s)
}

// How many zeros lead, of digits; the last digit is not counted.
pub fn skip_zeros(s: &[u8]) -> usize
    ensures { result ≡ zeros s.now }
{
    let most = s.len().saturating_sub(1);
    for i in 0..most {
        if s[i] != b'0' {
            return i;
        }
    }
    most
}

// The number that follows a word, where the word stands in front.
fn number_after(s: &[u8], p: &[u8]) -> Option<u64>
    ensures { result ≡ number_after p.now s.now }
{
    if !lines::starts_with(s, p) {
        return None;
    }
    read_number(lines::cut(s, p.len(), s.len()))
}

// The register whose number is one digit.
fn digit_name(d: u8) -> Option<Register>
    ensures { result ≡ reg_by (read_number (d ∷ [])) }
{
    Some(Register(digit(d)?))
}

// The register that a text names.
fn long_name(s: &[u8]) -> Option<Register>
    ensures { result ≡ reg_of s.now }
{
    Some(Register(number_after(s, b"r")?))
}

// The same: most texts do not begin with `r`, or have one digit.
pub fn reg_name(s: &[u8]) -> Option<Register>
    ensures { result ≡ reg_of s.now }
{
    if lines::byte_at(s, 0) != b'r' {
        return None;
    }
    if s.len() == 2 {
        return digit_name(s[1]);
    }
    long_name(s)
}

// The phi that a text names.
pub fn phi_name(s: &[u8]) -> Option<Phi>
    ensures { result ≡ phi_of s.now }
{
    Some(Phi(number_after(s, b"phi")?))
}

// Whether all bytes are digits.
fn all_digits(s: &[u8]) -> bool
    ensures { result ≡ all_digits s.now }
{
    s.iter().all(|d| d.is_ascii_digit())
}

// Whether a text names a temp: temps are compared by their text, so it has no number.
pub fn is_temp_name(s: &[u8]) -> bool
    ensures { result ≡ is_temp s.now }
{
    if !lines::starts_with(s, b"t") {
        return false;
    }
    if s.len() < 2 {
        return false;
    }
    all_digits(lines::cut(s, 1, s.len()))
}

// Whether digits are the number as it is printed: equal to it, with no zero in front of another digit.
fn prints(s: &[u8], v: u64) -> bool
    ensures { result ≡ same s.now (decimal v) }
{
    if 0 < skip_zeros(s) {
        return false;
    }
    match read_number(s) {
        Some(n) => n == v,
        None => false,
    }
}

// Whether a text is a word and then the number as it is printed.
fn prints_after(s: &[u8], p: &[u8], v: u64) -> bool
    ensures { result ≡ same s.now (p.now ++ decimal v) }
{
    if !lines::starts_with(s, p) {
        return false;
    }
    prints(lines::cut(s, p.len(), s.len()), v)
}

// Whether a text names a register.
pub fn names_reg(s: &[u8], reg: Register) -> bool
    ensures { result ≡ reg_is reg.0 (reg_of s.now) }
{
    match reg_name(s) {
        Some(q) => q.0 == reg.0,
        None => false,
    }
}

// Whether a text is the register as it is printed: one of two bytes is, where it names it.
pub fn is_reg_text(s: &[u8], reg: Register) -> bool
    ensures { result ≡ same s.now (reg_text reg.0) }
{
    if s.len() == 2 {
        return names_reg(s, reg);
    }
    prints_after(s, b"r", reg.0)
}

// Whether a text is the phi as it is printed.
pub fn is_phi_text(s: &[u8], phi: Phi) -> bool
    ensures { result ≡ same s.now (phi_text phi.0) }
{
    prints_after(s, b"phi", phi.0)
}

// Whether a text is a simple name: a letter, `_` or `$`, then bytes of a name.
pub fn is_simple_ident(s: &[u8]) -> bool
    ensures { result ≡ is_ident s.now }
{
    if s.len() == 0 {
        return false;
    }
    let d = s[0];
    if (b'0' <= d) & (d <= b'9') {
        return false;
    }
    s.iter().all(|b| text::is_name_byte(*b))
}

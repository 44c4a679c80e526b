// The records of a file, one by one.
ghost use Rattle.std.specs.Prelude.{◌≡◌, length};
ghost use Rattle.std.specs.Iterator.{YieldsFirst, at_most};
ghost use Rattle.reader.specs.Inner.Each.{left};

// The whole records in the bytes of a file.
#[derive(Clone, Copy)]
pub struct Records<'a> {
    pub form: origins::Form,
    pub bytes: &'a [u8],
}

impl<'a> Iterator for Records<'a> {
    type Item = origins::Went;

    ghost next_gives = { YieldsFirst left };

    ghost remaining = { λ s. at_most (length s.bytes.now) };

    fn next(&mut self) -> Option<origins::Went> {
        let bytes = self.bytes;
        let size = origins::size_of(self.form);
        if bytes.len() < size {
            return None;
        }
        self.bytes = &bytes[size..];
        Some(crate::went_at(self.form, bytes, 0))
    }
}

// What each record of a file says.
pub fn each(form: origins::Form, file: &[u8]) -> Records<'_>
    ensures form { result.form ≡ form }
    ensures bytes { result.bytes.now ≡ file.now }
{
    Records { form, bytes: file }
}

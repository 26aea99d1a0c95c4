// The recorded file, read from front to back: numbers have their low byte first, lists come after their length.

// What makes a file one of another form.
#[derive(Clone, Copy, Debug, PartialEq)]
pub enum Malformed {
    AnotherHeader,
    CutOff,
    UnknownKind(u8),
    // More values than any record has.
    TooLong(usize),
    // Among inputs or a rotation's values.
    NotANumber,
}

#[derive(Clone, Copy, Debug)]
pub struct Reader<'a> {
    rest: &'a [u8],
}

impl<'a> Reader<'a> {
    // Over what follows the first line, which has to be this one.
    pub fn new(file: &'a [u8]) -> Result<Reader<'a>, Malformed> {
        let header = b"fib-quant answers, format 1: crates/replay/README.md\n";
        match file.strip_prefix(header) {
            Some(rest) => Ok(Reader { rest }),
            None => Err(Malformed::AnotherHeader),
        }
    }

    pub fn is_at_end(&self) -> bool {
        self.rest.is_empty()
    }

    fn bytes<const N: usize>(&mut self) -> Result<[u8; N], Malformed> {
        let (first, rest) = self.rest.split_first_chunk::<N>().ok_or(Malformed::CutOff)?;
        self.rest = rest;
        Ok(*first)
    }

    pub fn u8(&mut self) -> Result<u8, Malformed> {
        Ok(u8::from_le_bytes(self.bytes()?))
    }

    pub fn u32(&mut self) -> Result<u32, Malformed> {
        Ok(u32::from_le_bytes(self.bytes()?))
    }

    pub fn u64(&mut self) -> Result<u64, Malformed> {
        Ok(u64::from_le_bytes(self.bytes()?))
    }

    pub fn f32(&mut self) -> Result<f32, Malformed> {
        let x = patterns::f32_of(self.u32()?);
        if x.is_nan() {
            Err(Malformed::NotANumber)
        } else {
            Ok(x)
        }
    }

    pub fn f64(&mut self) -> Result<f64, Malformed> {
        let x = patterns::f64_of(self.u64()?);
        if x.is_nan() {
            Err(Malformed::NotANumber)
        } else {
            Ok(x)
        }
    }

    // So many values, into the front of the room for them.
    pub fn values<'b, T: Item>(
        &mut self,
        len: usize,
        room: &'b mut [T],
    ) -> Result<&'b [T], Malformed> {
        let values = room.get_mut(..len).ok_or(Malformed::TooLong(len))?;
        for value in values.iter_mut() {
            *value = T::read(self)?;
        }
        Ok(values)
    }

    // Values after their length.
    pub fn list<'b, T: Item>(&mut self, room: &'b mut [T]) -> Result<&'b [T], Malformed> {
        let len = self.u8()?;
        self.values(usize::from(len), room)
    }
}

// What lists hold.
pub trait Item: Copy {
    fn read(reader: &mut Reader<'_>) -> Result<Self, Malformed>;
}

impl Item for u8 {
    fn read(reader: &mut Reader<'_>) -> Result<u8, Malformed> {
        reader.u8()
    }
}

impl Item for u32 {
    fn read(reader: &mut Reader<'_>) -> Result<u32, Malformed> {
        reader.u32()
    }
}

impl Item for f32 {
    fn read(reader: &mut Reader<'_>) -> Result<f32, Malformed> {
        reader.f32()
    }
}

impl Item for f64 {
    fn read(reader: &mut Reader<'_>) -> Result<f64, Malformed> {
        reader.f64()
    }
}

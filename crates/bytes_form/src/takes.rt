// Fields taken from the front of bytes.
ghost use Rattle.std.specs.Prelude.{◌≡◌, ◌+◌, ◌<◌, ◌↔◌, length, slice_index, IfOk, OnErr, IsErrOf, ◌^◌};
ghost use Rattle.std.specs.Int.{w8, w16, w32, w64, from_be_bytes};
ghost use Rattle.bytes_form.specs.Fields.{Takes, TakesNone, IsCutShort, number_field, flag_field, short_field, long_field, sized_field};
ghost use Rattle.bytes_form.specs.declared.takes.Form.TheVariants.{Short, Bad};

/// What is wrong with the bytes of a field.
#[derive(Clone, Copy, Debug, PartialEq, Eq)]
pub enum Form {
    /// Bytes are missing.
    Short,
    /// A flag is neither 0 nor 1.
    Bad,
}

/// A field's value, and the bytes behind the field.
#[derive(Clone, Copy, Debug, PartialEq, Eq)]
pub struct Taken<'a, T> {
    /// The value that was spelled.
    pub value: T,
    /// The bytes behind the field.
    pub rest: &'a [u8],
}

/// The number of one byte. `Short` comes exactly where there is none. Constant time, and no memory.
pub fn take_u8(bytes: &[u8]) -> Result<Taken<'_, u8>, Form>
    ensures ok { IfOk result (λ taken. Takes (number_field w8 taken.value) taken.rest.now bytes.now) }
    ensures fits { IfOk result (λ taken. taken.value < 2 ^ 8) }
    ensures size { IfOk result (λ taken. length bytes.now ≡ 1 + length taken.rest.now) }
    ensures err { OnErr result (TakesNone (number_field w8) bytes.now) }
    ensures short { IsErrOf result Short ↔ (length bytes.now < 1) }
    ensures never_bad { IsErrOf result Bad → ⊥ }
{
    let Some((value, rest)) = bytes.split_first() else {
        return Err(Form::Short);
    };
    Ok(Taken {
        value: *value,
        rest,
    })
}

/// The number of two bytes. `Short` comes exactly where there are fewer. Constant time, and no memory.
pub fn take_u16(bytes: &[u8]) -> Result<Taken<'_, u16>, Form>
    ensures ok { IfOk result (λ taken. Takes (number_field w16 taken.value) taken.rest.now bytes.now) }
    ensures fits { IfOk result (λ taken. taken.value < 2 ^ 16) }
    ensures size { IfOk result (λ taken. length bytes.now ≡ 2 + length taken.rest.now) }
    ensures err { OnErr result (TakesNone (number_field w16) bytes.now) }
    ensures short { IsErrOf result Short ↔ (length bytes.now < 2) }
    ensures never_bad { IsErrOf result Bad → ⊥ }
{
    let Some((first, rest)) = bytes.split_first_chunk::<2>() else {
        return Err(Form::Short);
    };
    Ok(Taken {
        value: u16::from_be_bytes(*first),
        rest,
    })
}

/// The number of four bytes. `Short` comes exactly where there are fewer. Constant time, and no memory.
pub fn take_u32(bytes: &[u8]) -> Result<Taken<'_, u32>, Form>
    ensures ok { IfOk result (λ taken. Takes (number_field w32 taken.value) taken.rest.now bytes.now) }
    ensures fits { IfOk result (λ taken. taken.value < 2 ^ 32) }
    ensures size { IfOk result (λ taken. length bytes.now ≡ 4 + length taken.rest.now) }
    ensures err { OnErr result (TakesNone (number_field w32) bytes.now) }
    ensures short { IsErrOf result Short ↔ (length bytes.now < 4) }
    ensures never_bad { IsErrOf result Bad → ⊥ }
{
    let Some((first, rest)) = bytes.split_first_chunk::<4>() else {
        return Err(Form::Short);
    };
    Ok(Taken {
        value: u32::from_be_bytes(*first),
        rest,
    })
}

/// The number of eight bytes. `Short` comes exactly where there are fewer. Constant time, and no memory.
pub fn take_u64(bytes: &[u8]) -> Result<Taken<'_, u64>, Form>
    ensures ok { IfOk result (λ taken. Takes (number_field w64 taken.value) taken.rest.now bytes.now) }
    ensures fits { IfOk result (λ taken. taken.value < 2 ^ 64) }
    ensures size { IfOk result (λ taken. length bytes.now ≡ 8 + length taken.rest.now) }
    ensures err { OnErr result (TakesNone (number_field w64) bytes.now) }
    ensures short { IsErrOf result Short ↔ (length bytes.now < 8) }
    ensures never_bad { IsErrOf result Bad → ⊥ }
{
    let Some((first, rest)) = bytes.split_first_chunk::<8>() else {
        return Err(Form::Short);
    };
    Ok(Taken {
        value: u64::from_be_bytes(*first),
        rest,
    })
}

/// A flag of one byte. `Short` comes exactly where there is none, `Bad` exactly where it is neither 0 nor 1. Constant
/// time, and no memory.
pub fn take_flag(bytes: &[u8]) -> Result<Taken<'_, bool>, Form>
    ensures ok { IfOk result (λ taken. Takes (flag_field taken.value) taken.rest.now bytes.now) }
    ensures size { IfOk result (λ taken. length bytes.now ≡ 1 + length taken.rest.now) }
    ensures err { OnErr result (TakesNone flag_field bytes.now) }
    ensures short { IsErrOf result Short ↔ (length bytes.now < 1) }
    ensures bad { IsErrOf result Bad ↔ (1 < slice_index bytes.now 0) }
{
    let Some((byte, rest)) = bytes.split_first() else {
        return Err(Form::Short);
    };
    match byte {
        0 => Ok(Taken { value: false, rest }),
        1 => Ok(Taken { value: true, rest }),
        _ => Err(Form::Bad),
    }
}

/// The first bytes, so many of them.
fn take_bytes(bytes: &[u8], size: usize) -> Result<Taken<'_, &[u8]>, Form>
    ensures ok { IfOk result (λ taken. Takes taken.value.now taken.rest.now bytes.now) }
    ensures size { IfOk result (λ taken. length taken.value.now ≡ size) }
    ensures err { OnErr result (length bytes.now < size) }
    ensures short { IsErrOf result Short ↔ (length bytes.now < size) }
    ensures never_bad { IsErrOf result Bad → ⊥ }
{
    let Some((value, rest)) = bytes.split_at_checked(size) else {
        return Err(Form::Short);
    };
    Ok(Taken { value, rest })
}

/// One length byte and as many bytes. `Short` comes exactly where bytes are missing. Constant time, and no memory.
pub fn take_short(bytes: &[u8]) -> Result<Taken<'_, &[u8]>, Form>
    ensures ok { IfOk result (λ taken. Takes (short_field taken.value.now) taken.rest.now bytes.now) }
    ensures fits { IfOk result (λ taken. length taken.value.now < 2 ^ 8) }
    ensures size { IfOk result (λ taken. length bytes.now ≡ 1 + length taken.value.now + length taken.rest.now) }
    ensures err { OnErr result (TakesNone short_field bytes.now) }
    ensures short { IsErrOf result Short ↔ IsCutShort w8 bytes.now }
    ensures never_bad { IsErrOf result Bad → ⊥ }
{
    let size = take_u8(bytes)?;
    take_bytes(size.rest, usize::from(size.value))
}

/// Two length bytes and as many bytes. `Short` comes exactly where bytes are missing. Constant time, and no memory.
pub fn take_long(bytes: &[u8]) -> Result<Taken<'_, &[u8]>, Form>
    ensures ok { IfOk result (λ taken. Takes (long_field taken.value.now) taken.rest.now bytes.now) }
    ensures fits { IfOk result (λ taken. length taken.value.now < 2 ^ 16) }
    ensures size { IfOk result (λ taken. length bytes.now ≡ 2 + length taken.value.now + length taken.rest.now) }
    ensures err { OnErr result (TakesNone long_field bytes.now) }
    ensures short { IsErrOf result Short ↔ IsCutShort w16 bytes.now }
    ensures never_bad { IsErrOf result Bad → ⊥ }
{
    let size = take_u16(bytes)?;
    take_bytes(size.rest, usize::from(size.value))
}

/// Four length bytes and as many bytes. `Short` comes exactly where bytes are missing. Constant time, and no memory.
pub fn take_sized(bytes: &[u8]) -> Result<Taken<'_, &[u8]>, Form>
    ensures ok { IfOk result (λ taken. Takes (sized_field taken.value.now) taken.rest.now bytes.now) }
    ensures fits { IfOk result (λ taken. length taken.value.now < 2 ^ 32) }
    ensures size { IfOk result (λ taken. length bytes.now ≡ 4 + length taken.value.now + length taken.rest.now) }
    ensures err { OnErr result (TakesNone sized_field bytes.now) }
    ensures short { IsErrOf result Short ↔ IsCutShort w32 bytes.now }
    ensures never_bad { IsErrOf result Bad → ⊥ }
{
    let size = take_u32(bytes)?;
    take_bytes(size.rest, size.value as usize)
}

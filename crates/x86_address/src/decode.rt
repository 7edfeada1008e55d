//! Reading ModRM, an address and an immediate byte.

ghost use Rattle.std.specs.Prelude.{◌≡◌, ◌<◌, ◌+◌, ◌*◌, ◌/◌, ◌%◌, [], ◌∷◌, true, false, IfOk, IfErr, OnErr};
ghost use Rattle.std.specs.Int.{cast_signed, w32};
ghost use Rattle.x86_operand.specs.Kind.{InMemory, VectorIndexed};
ghost use Rattle.x86_reader.specs.Reader.{Takes, Stops};
ghost use Rattle.x86_address.specs.Bytes.{bit, displacement_value};
ghost use Rattle.x86_address.specs.Place.{index_of};
ghost use Rattle.x86_address.specs.Shortest.{index_register};
ghost use Rattle.x86_address.specs.Reading.{take_byte, take_doubleword, take_displacement, take_sib, take_place};
ghost use Rattle.x86_address.specs.Follows.{Same, Follows, OverSlice};
ghost use Rattle.x86_address.specs.Reads.{NamesAddress, SpelledBy, CutShort};

use x86_operand::{Address, DecodeError, Index, RegSpec, RegisterBank};
use x86_reader::Reader;

/// Reads the ModRM byte (Intel SDM volume 2, section 2.1.3).
///
/// Both numbers of the reader rise by 1 after `Ok`, and are as before after an error. `ExhaustedInput` comes only where
/// the reader's count of refusals rose in this call or stands at its last value; over a `U8Reader`, exactly where no
/// byte is left. No other error comes.
pub fn read_modrm<R: Reader>(words: &mut R) -> Result<u8, DecodeError>
    ensures follows { Follows take_byte Same (R.state words.old) (R.state words.new) result }
    ensures taken { IfOk result (λ byte. Takes (R.state words.old) (R.state words.new) (byte ∷ [])) }
    ensures error { IfErr result (λ error. error ≡ DecodeError.ExhaustedInput) }
    ensures refused { OnErr result (Stops (R.state words.old) (R.state words.new) []) }
    ensures slice { OverSlice take_byte Same (R.state words.old) (R.state words.new) result }
{
    read_byte(words)
}

/// Reads SIB and displacement after a ModRM byte below C0 hex, and answers the address, with the bits X and B of the
/// prefix. Its base is of bank `Q` or the instruction pointer, and its index of bank `Q`.
///
/// SIB follows where the field rm is 4. A displacement follows with mod 1 (8 bits, sign extended) and with mod 2 (32
/// bits); with mod 0 only where rm is 5, which means the instruction pointer, or the base of SIB is 5, which means no
/// base: then it has 32 bits, and B is ignored. The index 4 means no index, whatever the scale. (Intel SDM volume 2,
/// tables 2-2 and 2-3, and sections 2.1.3 to 2.1.5, 2.2.1.6, 2.3.5.3, 2.3.5.4 and 2.3.8.)
///
/// Both numbers of the reader rise by the number of bytes taken, at most 5. `ExhaustedInput` comes only where the
/// reader's count of refusals rose in this call or stands at its last value; over a `U8Reader`, exactly where a byte
/// that the case wants isn't there, and then none is left. No other error comes.
pub fn read_address<R: Reader>(
    words: &mut R,
    modrm: u8,
    x: bool,
    b: bool,
) -> Result<Address, DecodeError>
    requires { modrm < 0xC0 }

    ensures follows { Follows (take_place (modrm / 64) (modrm % 8)) (NamesAddress false x b)
        (R.state words.old) (R.state words.new) result }

    // ModRM and the bytes taken, at most 5, spell the address.
    ensures spells { IfOk result (λ address.
        SpelledBy InMemory modrm x b address (R.state words.old) (R.state words.new)) }
    ensures error { IfErr result (λ error. error ≡ DecodeError.ExhaustedInput) }

    // After an error the bytes taken, at most 4, begin those of an address, and are fewer than the case wants.
    ensures cut { OnErr result (CutShort InMemory modrm x b (R.state words.old) (R.state words.new)) }
    ensures slice { OverSlice (take_place (modrm / 64) (modrm % 8)) (NamesAddress false x b)
        (R.state words.old) (R.state words.new) result }
{
    read_by_fields(words, modrm / 64, modrm % 8, x, b)
}

/// Reads SIB and displacement after a ModRM byte below C0 hex whose field rm is 4, and answers the address with a
/// vector register as its index, with the bits X and B of the prefix. Its base is of bank `Q`, and so is its index,
/// which a caller puts into the bank of the vector.
///
/// There always is an index: the number 4 is one like any other. All else is as `read_address` has it. (Intel SDM
/// volume 2, sections 2.1.5, 2.3.8 and 2.3.12.)
///
/// Both numbers of the reader rise by the number of bytes taken, at most 5. `ExhaustedInput` comes only where the
/// reader's count of refusals rose in this call or stands at its last value; over a `U8Reader`, exactly where a byte
/// that the case wants isn't there, and then none is left. No other error comes.
pub fn read_vector_address<R: Reader>(
    words: &mut R,
    modrm: u8,
    x: bool,
    b: bool,
) -> Result<Address, DecodeError>
    requires memory { modrm < 0xC0 }
    requires sib { modrm % 8 ≡ 4 }

    ensures follows { Follows (take_place (modrm / 64) (modrm % 8)) (NamesAddress true x b)
        (R.state words.old) (R.state words.new) result }

    // ModRM and the bytes taken, at most 5, spell the address.
    ensures spells { IfOk result (λ address.
        SpelledBy VectorIndexed modrm x b address (R.state words.old) (R.state words.new)) }
    ensures error { IfErr result (λ error. error ≡ DecodeError.ExhaustedInput) }

    // After an error the bytes taken, at most 4, begin those of an address, and are fewer than the case wants.
    ensures cut { OnErr result (CutShort VectorIndexed modrm x b (R.state words.old) (R.state words.new)) }
    ensures slice { OverSlice (take_place (modrm / 64) (modrm % 8)) (NamesAddress true x b)
        (R.state words.old) (R.state words.new) result }
{
    read_by_sib(words, modrm / 64, true, x, b)
}

/// Reads the immediate byte (Intel SDM volume 2, section 2.1.4).
///
/// Both numbers of the reader rise by 1 after `Ok`, and are as before after an error. `ExhaustedInput` comes only where
/// the reader's count of refusals rose in this call or stands at its last value; over a `U8Reader`, exactly where no
/// byte is left. No other error comes.
pub fn read_imm<R: Reader>(words: &mut R) -> Result<u8, DecodeError>
    ensures follows { Follows take_byte Same (R.state words.old) (R.state words.new) result }
    ensures taken { IfOk result (λ byte. Takes (R.state words.old) (R.state words.new) (byte ∷ [])) }
    ensures error { IfErr result (λ error. error ≡ DecodeError.ExhaustedInput) }
    ensures refused { OnErr result (Stops (R.state words.old) (R.state words.new) []) }
    ensures slice { OverSlice take_byte Same (R.state words.old) (R.state words.new) result }
{
    read_byte(words)
}

/// Reads one byte of an instruction. Numbers and errors are as `read_imm` has them, which is this for the last byte.
#[tactic(auto, using(crate::specs::Follows::Lemmas::follows_byte, crate::specs::Follows::Lemmas::lacks_byte))]
pub fn read_byte<R: Reader>(words: &mut R) -> Result<u8, DecodeError>
    ensures { Follows take_byte Same (R.state words.old) (R.state words.new) result }
{
    words.next().map_err(|_| DecodeError::ExhaustedInput)
}

/// A displacement of four bytes, the lowest first.
fn read_doubleword<R: Reader>(words: &mut R) -> Result<i32, DecodeError>
    ensures { Follows take_doubleword (λ n disp. disp ≡ cast_signed w32 n)
        (R.state words.old) (R.state words.new) result }
{
    let lowest = read_byte(words)?;
    let second = read_byte(words)?;
    let third = read_byte(words)?;
    let highest = read_byte(words)?;
    Ok(i32::from_le_bytes([lowest, second, third, highest]))
}

/// A displacement as long as the field mod says: none, a byte or four bytes for mod 0, 1 and 2.
fn read_displacement<R: Reader>(words: &mut R, mode: u8) -> Result<i32, DecodeError>
    requires { mode < 3 }
    ensures { Follows (take_displacement mode) (λ d disp. disp ≡ displacement_value d)
        (R.state words.old) (R.state words.new) result }
{
    match mode {
        0 => Ok(0),
        1 => Ok(i32::from(read_byte(words)?.cast_signed())),
        _ => read_doubleword(words),
    }
}

/// The general register of a field of three bits and the prefix bit above them.
fn general(field: u8, upper: bool) -> RegSpec
    requires { field < 8 }
    ensures { result ≡ record { bank = RegisterBank.Q; num = field + 8 * bit upper } }
{
    RegSpec::of(RegisterBank::Q, field + 8 * u8::from(upper)).unwrap()
}

/// The instruction pointer as a base.
fn instruction_pointer() -> RegSpec
    ensures { result ≡ record { bank = RegisterBank.RIP; num = 0 } }
{
    RegSpec::of(RegisterBank::RIP, 0).unwrap()
}

/// The index that SIB and X name: the number 4 means none, but of a vector register.
fn index_of(sib: u8, vector: bool, x: bool) -> Option<Index>
    ensures { result ≡ index_register RegisterBank.Q (index_of vector (sib / 64) ((sib / 8) % 8) x) }
{
    let reg = general(sib / 8 % 8, x);
    if !vector && reg.num() == 4 {
        return None;
    }
    Some(Index {
        reg,
        scale: 1 << (sib / 64),
    })
}

/// The address that SIB begins, with mod 0, 1 or 2.
fn read_by_sib<R: Reader>(
    words: &mut R,
    mode: u8,
    vector: bool,
    x: bool,
    b: bool,
) -> Result<Address, DecodeError>
    requires { mode < 3 }
    ensures { Follows (take_sib mode) (NamesAddress vector x b) (R.state words.old) (R.state words.new) result }
{
    let sib = read_byte(words)?;
    let index = index_of(sib, vector, x);
    if mode == 0 && sib % 8 == 5 {
        let disp = read_doubleword(words)?;
        return Ok(Address {
            base: None,
            index,
            disp,
        });
    }
    let disp = read_displacement(words, mode)?;
    let base = Some(general(sib % 8, b));
    Ok(Address { base, index, disp })
}

/// The address that the fields mod and rm of ModRM begin, with mod 0, 1 or 2.
fn read_by_fields<R: Reader>(
    words: &mut R,
    mode: u8,
    rm: u8,
    x: bool,
    b: bool,
) -> Result<Address, DecodeError>
    requires memory { mode < 3 }
    requires field { rm < 8 }
    ensures { Follows (take_place mode rm) (NamesAddress false x b) (R.state words.old) (R.state words.new) result }
{
    if rm == 4 {
        return read_by_sib(words, mode, false, x, b);
    }
    if mode == 0 && rm == 5 {
        let disp = read_doubleword(words)?;
        let base = Some(instruction_pointer());
        return Ok(Address {
            base,
            index: None,
            disp,
        });
    }
    let disp = read_displacement(words, mode)?;
    let base = Some(general(rm, b));
    Ok(Address {
        base,
        index: None,
        disp,
    })
}

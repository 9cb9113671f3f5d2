// Nine numbers of any size as the fields of an Initialise or an Update.
ghost use Rattle.std.specs.Prelude.{◌≡◌};
ghost use Rattle.airframe.specs.Given.{given_in};

use packets::Fields;

// None: a number is too large for its field.
pub fn fields_given(n: [u64; 9]) -> Option<Fields>
    ensures { result ≡ given_in n }
{
    Some(Fields {
        mode: u8::try_from(n[0]).ok()?,
        flags: u16::try_from(n[1]).ok()?,
        seconds: u32::try_from(n[2]).ok()?,
        milliseconds: u16::try_from(n[3]).ok()?,
        prioritylimit: u16::try_from(n[4]).ok()?,
        priorityremaining: u16::try_from(n[5]).ok()?,
        memorylimit: u32::try_from(n[6]).ok()?,
        memoryremaining: u32::try_from(n[7]).ok()?,
        poll: u16::try_from(n[8]).ok()?,
    })
}

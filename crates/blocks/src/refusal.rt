// Why a call is refused. docs/REFUSALS.md numbers the reasons, says when each is given and what to do about it.
ghost use Rattle.std.specs.Prelude.{◌≡◌};
ghost use Rattle.blocks.specs.Refusals.{number_of, number_in};

#[derive(Clone, Copy, Debug, PartialEq, Eq)]
pub enum Refusal {
    // 10: CIC order above 8.
    Order,
    // 11: comb delay 0 or above 8.
    Delay,
    // 12: rate above 65,535.
    Rate,
    // 13: countdown above 65,535.
    Countdown,
    // 14: gain above 2^63 - 1.
    Gain,
    // 15: unsettled count in a state above N·M.
    Unsettled,
    // 16: more than 2^64 - 1 inputs.
    Inputs,
    // 17: fit asked for another width than 32 or 64, or for bits outside 1 to the width.
    FitBits,
    // 20: output slice shorter than what goes into it.
    ShortOutput,
    // 21: interpolator given a sample when none is due.
    SampleNotDue,
    // 22: interpolator given no sample when one is due.
    SampleDue,
    // 23: interpolator block's input shorter than needed.
    ShortInput,
    // 30: modulator order above 8.
    ModulatorOrder,
    // 31: slices of a one-to-one block differ in length.
    Lengths,
    // 32: a retained carry out of range.
    Carry,
    // 40: fraction bits F: wide outside 0 to 31, dither outside 1 to 31.
    FractionBits,
    // 41: lower limit above upper, or a NaN limit.
    Limits,
    // 42: `input_offset` with a forward gain of zero.
    ForwardGain,
    // 50: more than 8 WDF sections.
    Sections,
    // 51: a nonzero architecture nibble beyond the last section.
    Adapters,
    // 52: no such coefficient: the double isn't from -0.5 to 0.
    Coefficient,
    // 53: a retired adapter, B1 or C1, in new work.
    RetiredAdapter,
    // 60: dt2 above 30.
    Dt2,
    // 61: shift_frequency not above dt2, or above 32.
    ShiftFrequency,
    // 62: shift_phase below dt2 or above dt2 + 31.
    ShiftPhase,
    // 65: `saturating_scale` shift outside 1 to 32.
    ScaleShift,
    // 71: no `cic` or `cic64` line yet, or a second one.
    Opening,
    // 72: line over 64 bytes.
    LongLine,
    // 73: unknown record.
    UnknownRecord,
    // 74: wrong number of fields.
    Fields,
    // 75: not a well-formed number.
    Malformed,
    // 76: number outside its range.
    OutOfRange,
    // 77: last line unterminated.
    Unterminated,
    // 80: first line isn't `set`, a tab and the form's number, 1 or 2.
    StoreForm,
    // 81: record form: malformed, too long, unterminated, or a number outside its type.
    SettingsLine,
    // 82: name used again or out of order.
    Names,
    // 83: more than 64 records.
    ManySettings,
    // 84: back from form 2 where a `dither` record is present.
    DitherPresent,
    // 85: the record's number isn't the next.
    RecordNumber,
    // 86: a saved state's check value is another.
    CheckValue,
    // 87: a word while the plug is out.
    PlugOut,
    // 90: another form of file: header, length, or a part of odd length.
    FileForm,
    // 91: a sample outside 16 bits.
    SampleRange,
}

impl Refusal {
    // The number that docs/REFUSALS.md gives it.
    pub fn number(self) -> u32
        ensures { result ≡ number_of self }
    {
        match self {
            Refusal::Order => 10,
            Refusal::Delay => 11,
            Refusal::Rate => 12,
            Refusal::Countdown => 13,
            Refusal::Gain => 14,
            Refusal::Unsettled => 15,
            Refusal::Inputs => 16,
            Refusal::FitBits => 17,
            Refusal::ShortOutput => 20,
            Refusal::SampleNotDue => 21,
            Refusal::SampleDue => 22,
            Refusal::ShortInput => 23,
            Refusal::ModulatorOrder => 30,
            Refusal::Lengths => 31,
            Refusal::Carry => 32,
            Refusal::FractionBits => 40,
            Refusal::Limits => 41,
            Refusal::ForwardGain => 42,
            Refusal::Sections => 50,
            Refusal::Adapters => 51,
            Refusal::Coefficient => 52,
            Refusal::RetiredAdapter => 53,
            Refusal::Dt2 => 60,
            Refusal::ShiftFrequency => 61,
            Refusal::ShiftPhase => 62,
            Refusal::ScaleShift => 65,
            Refusal::Opening => 71,
            Refusal::LongLine => 72,
            Refusal::UnknownRecord => 73,
            Refusal::Fields => 74,
            Refusal::Malformed => 75,
            Refusal::OutOfRange => 76,
            Refusal::Unterminated => 77,
            Refusal::StoreForm => 80,
            Refusal::SettingsLine => 81,
            Refusal::Names => 82,
            Refusal::ManySettings => 83,
            Refusal::DitherPresent => 84,
            Refusal::RecordNumber => 85,
            Refusal::CheckValue => 86,
            Refusal::PlugOut => 87,
            Refusal::FileForm => 90,
            Refusal::SampleRange => 91,
        }
    }
}

// The number of an answer's refusal, 0 where the call was accepted.
pub fn number<T: Drop>(answer: Result<T, Refusal>) -> u32
    ensures { result ≡ number_in answer }
{
    match answer {
        Ok(_) => 0,
        Err(refusal) => refusal.number(),
    }
}

// The program's argument.
ghost use Rattle.std.specs.Prelude.{◌≡◌};
ghost use Rattle.drift_report.specs.Argument.{module_asked};

// The module that an argument asks for: one or more digits that say a number of 16 bits.
pub fn module_asked(argument: &[u8]) -> Option<u16>
    ensures { result ≡ module_asked argument.now }
{
    let n = text::read_decimal(argument, 65_535)?;
    Some(n as u16)
}

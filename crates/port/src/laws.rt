// The chip machine keeps the data sheet's laws.
ghost use Rattle.std.specs.Prelude.{◌≡◌, true};
ghost use Rattle.port.specs.Laws.{MachineLaws};

// Says nothing but what it ensures: that the machine, as it is defined, keeps the laws. It answers true so that a wrong body can be
// planted.
pub fn machine_is_lawful() -> bool
    ensures { MachineLaws × (result ≡ true) }
{
    true
}

// The C firmware host's calls as a library; `cxpi_c` exports them. docs/LAYOUTS.md has the bytes.
#![tactic(auto)]

ghost use Rattle.std.specs.Prelude.{◌≡◌};
ghost use Rattle.cxpi.specs.Version.{version};

pub mod configuration;
pub mod masters;
pub mod nodes;
mod power_on;
pub mod sets;

pub fn cxpi_version() -> u32
    ensures { result ≡ version }
{
    6
}

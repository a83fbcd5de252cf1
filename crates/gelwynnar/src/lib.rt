// Gelwynnar for C and C++: the functions of include/gelwynnar.h. Each takes and gives numbers, arrays, slices and
// structs of numbers, keeps nothing and uses no heap, and says its whole result by the definitions of the paper. None
// asks anything of its caller but the arrays' lengths, which their C types fix, and `gel_step` and `gel_arbiter_step`,
// that the state be ready.
#![tactic(auto)]

ghost use Rattle.std.specs.Prelude.{◌≡◌};
ghost use Rattle.gelwynnar.specs.Version.{interface_version};

pub mod arbiter;
pub mod capture;
pub mod script;
pub mod sizes;
pub mod slots;

// The interface that the header describes: its GEL_VERSION.
const VERSION: u32 = 5;

#[unsafe(no_mangle)]
pub extern "C" fn gel_version() -> u32
    ensures { result ≡ interface_version }
{
    VERSION
}

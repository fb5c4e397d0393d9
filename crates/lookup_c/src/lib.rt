// The functions of `lookup` that C calls, under their C names: each calls the one proved there, and has its clauses.
#![tactic(auto)]

ghost use Rattle.std.specs.Prelude.{◌≡◌};
ghost use Rattle.causes.specs.Causes.{causes_by};
ghost use Rattle.lookup.specs.Lookup.{byte_of, entry};

// The cause byte that the eight inputs select.
#[unsafe(no_mangle)]
pub extern "C" fn causes_by_table(
    ssf: bool,
    ais: bool,
    oci: bool,
    lck: bool,
    tim: bool,
    disabled: bool,
    deg: bool,
    bdi: bool,
) -> u8
    ensures { result ≡ entry ssf ais oci lck tim disabled deg bdi }
{
    lookup::causes_by_table(ssf, ais, oci, lck, tim, disabled, deg, bdi)
}

// The same byte by the equations: what stands beside the lookup where instructions are counted.
#[unsafe(no_mangle)]
pub extern "C" fn causes_by_equations(
    ssf: bool,
    ais: bool,
    oci: bool,
    lck: bool,
    tim: bool,
    disabled: bool,
    deg: bool,
    bdi: bool,
) -> u8
    ensures { result ≡ byte_of (causes_by ssf ais oci lck tim disabled deg bdi) }
{
    lookup::causes_by_equations(ssf, ais, oci, lck, tim, disabled, deg, bdi)
}

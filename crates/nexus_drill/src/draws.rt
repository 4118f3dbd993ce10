// The generator of draws.
ghost use Rattle.std.specs.Prelude.{◌≡◌};
ghost use Rattle.nexus_drill.specs.Draws.{draw_of, next};

/// The state of the generator after one more draw. `docs/FORMATS.md`, "Generated load", states it.
pub fn next(x: u64) -> u64
    ensures { result ≡ next x }
{
    x.wrapping_mul(6_364_136_223_846_793_005)
        .wrapping_add(1_442_695_040_888_963_407)
}

/// The draw of a state.
pub fn draw_of(x: u64) -> u64
    ensures { result ≡ draw_of x }
{
    x / 4_294_967_296
}

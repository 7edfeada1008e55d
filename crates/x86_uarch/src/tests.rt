use super::laws::equal_profiles;
use super::*;
use std::process::Abort;

/// A profile's name, the settings that its function answers, and its bits.
type Row = (&'static str, InstDecoder, &'static [u8]);

#[test]
fn each_profile_has_its_bits(rt: HostRuntime) {
    check(&rt, &amd());
    check(&rt, &intel());
    assert!(rt; profile("default") == Some(InstDecoder::default()));
    assert!(rt; profile("minimal") == Some(InstDecoder::minimal()));
    equal_profiles();
}

#[test]
fn other_texts_name_no_profile(rt: HostRuntime) {
    let texts = [
        "",
        "zen1",
        "zen6",
        "Zen",
        "ZEN4",
        " zen",
        "zen ",
        "zen\n",
        "ze",
        "k9",
        "core2",
        "haswell-ex",
        "haswellex",
        "sandy_bridge",
        "kaby lake",
        "Default",
        "defaults",
        "minimal()",
        "minima",
    ];
    for text in texts {
        assert!(rt; profile(text).is_none(), "{text}");
    }
}

#[test]
fn oddities_are_kept(rt: HostRuntime) {
    let with_two_parts = intel::skylake().with_avx512_f().with_avx512_dq();
    let rows = [
        ("skylake, avx512_f", intel::skylake().avx512_f(), false),
        (
            "two parts of avx512, avx512_f",
            with_two_parts.avx512_f(),
            true,
        ),
        (
            "two parts of avx512, avx512_dq",
            with_two_parts.avx512_dq(),
            true,
        ),
        (
            "two parts of avx512, avx512",
            with_two_parts.avx512(),
            false,
        ),
        ("k10, cmov", amd::k10().cmov(), true),
        ("bulldozer, cmov", amd::bulldozer().cmov(), false),
        ("zen, cmov", amd::zen().cmov(), false),
        ("core, sse4_2", intel::core().sse4_2(), true),
        ("kabylake, lahfsahf", intel::kabylake().lahfsahf(), false),
    ];
    for (what, got, want) in rows {
        assert_eq!(rt; got, want, "{what}");
    }
}

fn check(rt: &impl Abort, rows: &[Row]) {
    for (name, settings, places) in rows {
        assert!(rt; profile(name) == Some(*settings), "{name}");
        for i in 0..128 {
            assert_eq!(rt; settings.bit(i), places.contains(&i), "{name} at {i}");
        }
    }
}

fn amd() -> [Row; 11] {
    [
        ("k8", amd::k8(), &[1, 2, 29]),
        ("k10", amd::k10(), &[1, 2, 3, 29, 30, 38, 54, 57, 59]),
        (
            "bulldozer",
            amd::bulldozer(),
            &[
                3, 5, 7, 25, 30, 32, 34, 38, 43, 53, 54, 55, 56, 57, 58, 59, 65, 66,
            ],
        ),
        (
            "piledriver",
            amd::piledriver(),
            &[
                3, 5, 7, 25, 30, 32, 33, 34, 38, 43, 53, 54, 55, 56, 57, 58, 59, 61, 65, 66,
            ],
        ),
        (
            "steamroller",
            amd::steamroller(),
            &[
                3, 5, 7, 25, 30, 32, 34, 38, 43, 53, 54, 55, 56, 57, 58, 59, 65, 66,
            ],
        ),
        (
            "excavator",
            amd::excavator(),
            &[
                3, 5, 7, 8, 25, 26, 30, 32, 34, 38, 41, 43, 48, 52, 53, 54, 55, 56, 57, 58, 59, 65,
                66,
            ],
        ),
        (
            "zen",
            amd::zen(),
            &[
                3, 4, 5, 7, 8, 25, 26, 27, 28, 30, 32, 33, 38, 41, 43, 48, 49, 52, 53, 54, 55, 56,
                57, 58, 59, 66, 67, 68, 69, 70, 71,
            ],
        ),
        (
            "zen2",
            amd::zen2(),
            &[
                3, 4, 5, 7, 8, 25, 26, 27, 28, 30, 32, 33, 38, 41, 43, 48, 49, 52, 53, 54, 55, 56,
                57, 58, 59, 66, 67, 68, 69, 70, 71, 72, 73,
            ],
        ),
        (
            "zen3",
            amd::zen3(),
            &[
                3, 4, 5, 7, 8, 25, 26, 27, 28, 30, 32, 33, 37, 38, 41, 43, 48, 49, 52, 53, 54, 55,
                56, 57, 58, 59, 63, 66, 67, 68, 69, 70, 71, 72, 73, 74,
            ],
        ),
        (
            "zen4",
            amd::zen4(),
            &[
                3, 4, 5, 7, 8, 13, 14, 17, 20, 21, 22, 23, 25, 26, 27, 28, 30, 32, 33, 35, 37, 38,
                41, 43, 48, 49, 52, 53, 54, 55, 56, 57, 58, 59, 63, 66, 67, 68, 69, 70, 71, 72, 73,
                74,
            ],
        ),
        (
            "zen5",
            amd::zen5(),
            &[
                3, 4, 5, 7, 8, 12, 13, 14, 15, 17, 18, 20, 21, 22, 23, 25, 26, 27, 28, 30, 32, 33,
                35, 37, 38, 41, 43, 48, 49, 52, 53, 54, 55, 56, 57, 58, 59, 63, 66, 67, 68, 69, 70,
                71, 72, 73, 74, 75, 76, 109,
            ],
        ),
    ]
}

fn intel() -> [Row; 12] {
    [
        ("netburst", intel::netburst(), &[29, 30, 54]),
        ("core", intel::core(), &[29, 30, 54, 55, 56, 58]),
        ("penryn", intel::penryn(), &[29, 30, 54, 55, 56, 58]),
        ("nehalem", intel::nehalem(), &[29, 30, 45, 54, 55, 56, 58]),
        (
            "westmere",
            intel::westmere(),
            &[5, 29, 30, 43, 45, 54, 55, 56, 58],
        ),
        (
            "sandybridge",
            intel::sandybridge(),
            &[5, 7, 29, 30, 43, 45, 54, 55, 56, 58],
        ),
        (
            "ivybridge",
            intel::ivybridge(),
            &[5, 7, 29, 30, 32, 43, 45, 48, 54, 55, 56, 58],
        ),
        (
            "haswell",
            intel::haswell(),
            &[
                3, 5, 7, 8, 25, 26, 29, 30, 32, 33, 43, 45, 48, 54, 55, 56, 58,
            ],
        ),
        (
            "haswell_ex",
            intel::haswell_ex(),
            &[
                3, 5, 7, 8, 25, 26, 29, 30, 32, 33, 43, 45, 48, 54, 55, 56, 58, 62,
            ],
        ),
        (
            "broadwell",
            intel::broadwell(),
            &[
                3, 4, 5, 7, 8, 25, 26, 29, 30, 32, 33, 43, 45, 46, 48, 49, 54, 55, 56, 58, 62,
            ],
        ),
        (
            "skylake",
            intel::skylake(),
            &[
                3, 4, 5, 7, 8, 25, 26, 29, 30, 32, 33, 42, 43, 45, 46, 48, 49, 51, 54, 55, 56, 58,
                62,
            ],
        ),
        (
            "kabylake",
            intel::kabylake(),
            &[
                3, 4, 5, 7, 8, 25, 26, 29, 30, 32, 33, 42, 43, 45, 46, 48, 49, 51, 54, 55, 56, 58,
                62,
            ],
        ),
    ]
}

ghost use Rattle.std.specs.Prelude.{◌<◌, ◌≤◌, length};

use link_frames::{Frame, Seen, Standing, Step, step_of};
use std::test::*;

// Whether a frame with this data is answered so, and where the session stands then.
fn answers(standing: Standing, body: &[u8], answer: &[u8], next: Standing) -> bool
    requires some { 0 < length body.now }
    requires few { length body.now ≤ 255 }
{
    match step_of(standing, &Seen::Whole(Frame::new(body))) {
        Step::Answer(frame, stands) => frame.bytes() == answer && stands == next,
        _ => false,
    }
}

#[test]
fn gives_the_fixed_answers(rt: HostRuntime) {
    assert!(rt;
        answers(
            Standing::Idle,
            &[0x81],
            &[0xC1, 0xEA, 0x8F],
            Standing::Started
        )
    );
    assert!(rt;
        answers(
            Standing::Started,
            &[0x10, 0x81],
            &[0x50, 0x81],
            Standing::Diagnostic
        )
    );
    let all = [0x35, 0x00, 0x00, 0x00, 0x00, 0x00, 0xFF, 0xFF, 0xFF, 0xFF];
    assert!(rt;
        answers(
            Standing::Diagnostic,
            &all,
            &[0x75, 0x00, 0xFF],
            Standing::Upload
        )
    );
    assert!(rt; answers(Standing::Upload, &[0x37], &[0x77], Standing::Diagnostic));
    assert!(rt; answers(Standing::Diagnostic, &[0x82], &[0xC2], Standing::Idle));
}

#[test]
fn refuses_by_the_first_check_that_fails(rt: HostRuntime) {
    let upload = Standing::Upload;
    assert!(rt; answers(upload, &[0x27], &[0x7F, 0x27, 0x11], upload));
    assert!(rt; answers(upload, &[0x36], &[0x7F, 0x36, 0x13], upload));
    assert!(rt;
        answers(
            Standing::Started,
            &[0x36, 0x01],
            &[0x7F, 0x36, 0x22],
            Standing::Started
        )
    );
    assert!(rt;
        answers(
            upload,
            &[0x36, 0x02, 0, 0, 0, 1],
            &[0x7F, 0x36, 0x31],
            upload
        )
    );
}

// published: what the standards print, run through the public functions, and both sides of each limit that the definitions draw.
#![tactic(auto)]

fn main(rt: HostRuntime) {
    if input::words(rt) != 0 {
        input::usage(rt, b"published");
        return;
    }
    published_frames::print_frames(rt);
    published_requests::print_requests(rt);
}

// The calls exported to C for the headers of .astc files and for clips.
#![tactic(auto)]

ghost use Rattle.std.specs.Prelude.{◌≡◌, length};
ghost use Rattle.astc_numbers.specs.Numbers.{read_number, read_numbers, write_number, write_bytes};
ghost use Rattle.clip_frame.specs.Frame.{write_refusal, frame_out};
ghost use Rattle.clip_numbers.specs.Numbers.{start_number, start_state, feed_number, feed_state, feed_block, feed_told, finish_numbered, finish_state};

// What the header of a whole file says, as three numbers: 0, the refusal with zeros in `header`, or 5, last, with `header` as it was.
#[unsafe(no_mangle)]
pub extern "C" fn stallbrook_astc_read_header(file: &[u8], header: &mut [u32]) -> u8
    ensures value { result ≡ read_number file.now (length header.old) }
    ensures header_after { header.new ≡ read_numbers file.now header.old }
{
    astc_numbers::read_numbers(file, header)
}

// A header's sixteen bytes: 0, the refusal with zeros in `header`, or 5, last, with `header` as it was.
#[unsafe(no_mangle)]
pub extern "C" fn stallbrook_astc_write_header(
    footprint: u8,
    width: u32,
    height: u32,
    header: &mut [u8],
) -> u8
    ensures value { result ≡ write_number footprint width height (length header.old) }
    ensures header_after { header.new ≡ write_bytes footprint width height header.old }
{
    astc_numbers::write_numbers(footprint, width, height, header)
}

// ---- clips

// A fresh start: 0, or 5 where the state is not of 26 numbers, which are then as they were.
#[unsafe(no_mangle)]
pub extern "C" fn stallbrook_clip_start(state: &mut [u32]) -> u8
    ensures value { result ≡ start_number (length state.old) }
    ensures state_after { state.new ≡ start_state state.old }
{
    clip_numbers::start_numbers(state)
}

// A piece: the number told, 0 where none is, or 5, which leaves all lists as they were.
#[unsafe(no_mangle)]
pub extern "C" fn stallbrook_clip_feed(
    state: &mut [u32],
    piece: &[u8],
    block: &mut [u8],
    told: &mut [u64],
) -> u8
    ensures value { result ≡ feed_number state.old piece.now block.old told.old }
    ensures state_after { state.new ≡ feed_state state.old piece.now block.old told.old }
    ensures block_after { block.new ≡ feed_block state.old piece.now block.old told.old }
    ensures told_after { told.new ≡ feed_told state.old piece.now block.old told.old }
{
    clip_numbers::feed_numbers(state, piece, block, told)
}

// The clip is said to be finished: the number told, or 5.
#[unsafe(no_mangle)]
pub extern "C" fn stallbrook_clip_finish(state: &mut [u32]) -> u8
    ensures value { result ≡ finish_numbered state.old }
    ensures state_after { state.new ≡ finish_state state.old }
{
    clip_numbers::finish_numbers(state)
}

// A frame's bytes: 0, or the refusal, 1 to 5, with `out` as it was.
#[unsafe(no_mangle)]
pub extern "C" fn stallbrook_clip_write_frame(
    footprint: u8,
    kind: u8,
    width: u32,
    height: u32,
    blocks: &[u8],
    out: &mut [u8],
) -> u8
    ensures value { result ≡ write_refusal (record { footprint = footprint; kind = kind; width = width; height = height }) (length blocks.now) (length out.old) }
    ensures out_after { out.new ≡ frame_out (record { footprint = footprint; kind = kind; width = width; height = height }) blocks.now out.old }
{
    reason::refusal_told(clip_writer::write_frame(footprint, kind, width, height, blocks, out))
}

// Every operation of the library for tests and benchmarks in other languages: `probe_X` calls X on the caller's own buffers. What the call answers goes to
// the last parameter, as far as that has room: the papers' answer number, the place, and four results, which are zeros where there are none.
#![tactic(auto)]

ghost use Rattle.std.specs.Prelude.{◌≡◌, length};
ghost use Rattle.std.proofs.lemmas.List.Edits.{sets};
ghost use Rattle.reading.specs.Reading.{read, read_into};
ghost use Rattle.totals.specs.Totals.{total, repeated_total};
ghost use Rattle.encoder.specs.Writing.{write, write_into};
ghost use Rattle.appender.specs.Appending.{append, append_into};
ghost use Rattle.replacer.specs.Replacing.{replace, replace_into, preview};
ghost use Rattle.headers.specs.Headers.{header};
ghost use Rattle.header_reader.specs.Reading.{read_header};
ghost use Rattle.table_decoder.specs.Reading.{read_table, read_table_into, read_bytes, read_bytes_into};
ghost use Rattle.dense_encoder.specs.Writing.{write_dense, write_dense_into};
ghost use Rattle.dense_decoder.specs.Reading.{read_dense, read_dense_into};
ghost use Rattle.wavelet.specs.Questions.{build, build_into, extract, rank, select};
ghost use Rattle.listing_text.specs.Listing.{text, put, put_into};
ghost use Rattle.answers.specs.Leaves.{single, pair, three, headed, values};
ghost use Rattle.probe.specs.Leaves.{told};

use answers::Answer;

// The six numbers from the front of a list, as far as it has room.
fn tell(answer: &mut [u64], a: Answer)
    ensures { answer.new ≡ sets answer.old 0 (values a) }
{
    let six = [a.number, a.place, a.first, a.second, a.third, a.fourth];
    let n = answer.len().min(six.len());
    answer[..n].copy_from_slice(&six[..n]);
}

#[unsafe(no_mangle)]
pub extern "C" fn probe_write(order: usize, row: &[u32], out: &mut [u8], answer: &mut [u64])
    ensures answer_after { answer.new ≡ told (headed (write order row.now (length out.old))) answer.old }
    ensures out_after { out.new ≡ write_into order row.now out.old }
{
    tell(answer, Answer::from(encoder::write(order, row, out)));
}

#[unsafe(no_mangle)]
pub extern "C" fn probe_read(order: usize, s: &[u8], out: &mut [u32], answer: &mut [u64])
    ensures answer_after { answer.new ≡ told (single (read order s.now (length out.old))) answer.old }
    ensures out_after { out.new ≡ read_into order s.now out.old }
{
    tell(answer, Answer::from(decoder::read(order, s, out)));
}

#[unsafe(no_mangle)]
pub extern "C" fn probe_table_read(s: &[u8], out: &mut [u32], answer: &mut [u64])
    ensures answer_after { answer.new ≡ told (single (read_table s.now (length out.old))) answer.old }
    ensures out_after { out.new ≡ read_table_into s.now out.old }
{
    tell(answer, Answer::from(table_decoder::read(s, out)));
}

#[unsafe(no_mangle)]
pub extern "C" fn probe_table_read_bytes(s: &[u8], out: &mut [u8], answer: &mut [u64])
    ensures answer_after { answer.new ≡ told (single (read_bytes s.now (length out.old))) answer.old }
    ensures out_after { out.new ≡ read_bytes_into s.now out.old }
{
    tell(answer, Answer::from(table_decoder::read_bytes(s, out)));
}

#[unsafe(no_mangle)]
pub extern "C" fn probe_dense_write(
    stoppers: usize,
    row: &[u32],
    out: &mut [u8],
    answer: &mut [u64],
)
    ensures answer_after { answer.new ≡ told (single (write_dense stoppers row.now (length out.old))) answer.old }
    ensures out_after { out.new ≡ write_dense_into stoppers row.now out.old }
{
    tell(
        answer,
        Answer::from(dense_encoder::write(stoppers, row, out)),
    );
}

#[unsafe(no_mangle)]
pub extern "C" fn probe_dense_read(stoppers: usize, b: &[u8], out: &mut [u32], answer: &mut [u64])
    ensures answer_after { answer.new ≡ told (single (read_dense stoppers b.now (length out.old))) answer.old }
    ensures out_after { out.new ≡ read_dense_into stoppers b.now out.old }
{
    tell(answer, Answer::from(dense_decoder::read(stoppers, b, out)));
}

#[unsafe(no_mangle)]
pub extern "C" fn probe_header(order: usize, s: &[u8], answer: &mut [u64])
    ensures { answer.new ≡ told (three (read_header order s.now)) answer.old }
{
    tell(answer, Answer::from(header_reader::read(order, s)));
}

#[unsafe(no_mangle)]
pub extern "C" fn probe_append(
    order: usize,
    buf: &mut [u8],
    bits: usize,
    count: usize,
    total: u64,
    n: u32,
    answer: &mut [u64],
)
    ensures answer_after { answer.new ≡ told (headed (append order (length buf.old) (header bits count total) n)) answer.old }
    ensures buf_after { buf.new ≡ append_into order buf.old (header bits count total) n }
{
    let header = headers::Header { bits, count, total };
    tell(
        answer,
        Answer::from(appender::append(order, buf, header, n)),
    );
}

#[unsafe(no_mangle)]
pub extern "C" fn probe_replace(
    order: usize,
    buf: &mut [u8],
    used: usize,
    place: usize,
    n: u32,
    answer: &mut [u64],
)
    ensures answer_after { answer.new ≡ told (headed (replace order buf.old used place n)) answer.old }
    ensures buf_after { buf.new ≡ replace_into order buf.old used place n }
{
    tell(
        answer,
        Answer::from(replacer::replace(order, buf, used, place, n)),
    );
}

#[unsafe(no_mangle)]
pub extern "C" fn probe_preview(
    order: usize,
    buf: &[u8],
    used: usize,
    place: usize,
    n: u32,
    answer: &mut [u64],
)
    ensures { answer.new ≡ told (headed (preview order buf.now used place n)) answer.old }
{
    tell(
        answer,
        Answer::from(replacer::preview(order, buf, used, place, n)),
    );
}

#[unsafe(no_mangle)]
pub extern "C" fn probe_total(order: usize, s: &[u8], a: usize, b: usize, answer: &mut [u64])
    ensures { answer.new ≡ told (single (total order s.now a b)) answer.old }
{
    tell(answer, Answer::from(totals::total(order, s, a, b)));
}

#[unsafe(no_mangle)]
pub extern "C" fn probe_repeated_total(
    order: usize,
    s: &[u8],
    repeats: u64,
    shared: u64,
    answer: &mut [u64],
)
    ensures { answer.new ≡ told (single (repeated_total order s.now repeats shared)) answer.old }
{
    tell(
        answer,
        Answer::from(totals::repeated_total(order, s, repeats, shared)),
    );
}

#[unsafe(no_mangle)]
pub extern "C" fn probe_build(
    order: usize,
    alphabet: u32,
    row: &[u32],
    out: &mut [u8],
    answer: &mut [u64],
)
    ensures answer_after { answer.new ≡ told (single (build order alphabet row.now (length out.old))) answer.old }
    ensures out_after { out.new ≡ build_into order alphabet row.now out.old }
{
    tell(
        answer,
        Answer::from(wavelet_build::build(order, alphabet, row, out)),
    );
}

#[unsafe(no_mangle)]
pub extern "C" fn probe_extract(
    order: usize,
    alphabet: u32,
    len: usize,
    index: &[u8],
    i: usize,
    answer: &mut [u64],
)
    ensures { answer.new ≡ told (pair (extract order alphabet len index.now i)) answer.old }
{
    tell(
        answer,
        Answer::from(wavelet_query::extract(order, alphabet, len, index, i)),
    );
}

#[unsafe(no_mangle)]
pub extern "C" fn probe_rank(
    order: usize,
    alphabet: u32,
    len: usize,
    index: &[u8],
    n: u32,
    i: usize,
    answer: &mut [u64],
)
    ensures { answer.new ≡ told (pair (rank order alphabet len index.now n i)) answer.old }
{
    tell(
        answer,
        Answer::from(wavelet_query::rank(order, alphabet, len, index, n, i)),
    );
}

#[unsafe(no_mangle)]
pub extern "C" fn probe_select(
    order: usize,
    alphabet: u32,
    len: usize,
    index: &[u8],
    n: u32,
    j: usize,
    answer: &mut [u64],
)
    ensures { answer.new ≡ told (pair (select order alphabet len index.now n j)) answer.old }
{
    tell(
        answer,
        Answer::from(wavelet_query::select(order, alphabet, len, index, n, j)),
    );
}

#[unsafe(no_mangle)]
pub extern "C" fn probe_listing(input: &[u8], out: &mut [u8], answer: &mut [u64])
    ensures answer_after { answer.new ≡ told (single (put (text input.now) (length out.old))) answer.old }
    ensures out_after { out.new ≡ put_into (text input.now) out.old }
{
    tell(answer, Answer::from(listing_text::listing(input, out)));
}

// A request is read once: what it asks, with its numbers, or why it is unread.
ghost use Rattle.std.specs.Prelude.{◌≡◌, ◌≤◌, length};
ghost use Rattle.server.specs.Requests.{sized, form_of_14, form_of_19, form_of_22, form_of_3e, request_of};

// Each request of document 01 with its numbers, `silent` where bit 7 of its sub-function is set.
#[derive(Clone, Copy, Debug, PartialEq, Eq)]
pub enum Request {
    ClearGroup { group: u32 },
    CountByMask { silent: bool, mask: u8 },
    ListByMask { silent: bool, mask: u8 },
    ListAll { silent: bool },
    ReadData,
    TesterPresent { silent: bool },
}

// The bytes of a request, made where its length was tested.
#[derive(Clone, Copy)]
pub struct RequestBytes<'a> {
    pub bytes: &'a [u8],
    ghost some: { 1 ≤ length bytes.now },
    ghost within: { length bytes.now ≤ 255 },
}

// The checks of a request's form, of which the first that fails is told.
#[derive(Clone, Copy, Debug, PartialEq, Eq)]
pub enum Unread {
    UnknownService,
    TooShort,
    UnknownSubFunction,
    WrongLength,
}

// A request of the right length, or the wrong one.
fn sized(right: bool, asked: Request) -> Result<Request, Unread>
    ensures { result ≡ sized right asked }
{
    if right {
        return Ok(asked);
    }
    Err(Unread::WrongLength)
}

fn form_of_14(request: &[u8]) -> Result<Request, Unread>
    ensures { result ≡ form_of_14 request.now }
{
    let [_, high, middle, low] = request else {
        return Err(Unread::WrongLength);
    };
    let group = u32::from_be_bytes([0, *high, *middle, *low]);
    Ok(Request::ClearGroup { group })
}

fn form_of_19(request: &[u8]) -> Result<Request, Unread>
    ensures { result ≡ form_of_19 request.now }
{
    let n = request.len();
    if n < 2 {
        return Err(Unread::TooShort);
    }
    let silent = 128 <= request[1];
    let mask = request.get(2).copied().unwrap_or(0);
    match request[1] % 128 {
        0x01 => sized(n == 3, Request::CountByMask { silent, mask }),
        0x02 => sized(n == 3, Request::ListByMask { silent, mask }),
        0x0A => sized(n == 2, Request::ListAll { silent }),
        _ => Err(Unread::UnknownSubFunction),
    }
}

fn form_of_22(request: &[u8]) -> Result<Request, Unread>
    ensures { result ≡ form_of_22 request.now }
{
    let n = request.len();
    sized((3 <= n) & (n % 2 == 1), Request::ReadData)
}

fn form_of_3E(request: &[u8]) -> Result<Request, Unread>
    ensures { result ≡ form_of_3e request.now }
{
    let n = request.len();
    if n < 2 {
        return Err(Unread::TooShort);
    }
    let silent = 128 <= request[1];
    if request[1] % 128 == 0x00 {
        return sized(n == 2, Request::TesterPresent { silent });
    }
    Err(Unread::UnknownSubFunction)
}

pub fn read_request(request: RequestBytes) -> Result<Request, Unread>
    ensures { result ≡ request_of request.entry.bytes.now }
{
    let bytes = request.bytes;
    let service = bytes[0];
    match service {
        0x14 => form_of_14(bytes),
        0x19 => form_of_19(bytes),
        0x22 => form_of_22(bytes),
        0x3E => form_of_3E(bytes),
        _ => Err(Unread::UnknownService),
    }
}

//! The files of examples/files/, of which one function each is asked about, as they stand there. Verdicts and improvements are worked out
//! by hand.

use crate::cases::{Ending, first_wrong};

// ring.c
const RING: &[u8] =
    b"/* A ring buffer of readings, written by an interrupt and read by the main loop. */
#include <stdio.h>
#include <string.h>

#define RING_SIZE 64
#define RING_MASK (RING_SIZE - 1)
#define LOG(...) fprintf(stderr, \"ring: \" __VA_ARGS__)

struct ring {
    int data[RING_SIZE];
    volatile unsigned head; /* where the next one is written */
    volatile unsigned tail; /* where the next one is read */
    unsigned long lost;
};

static struct ring readings;

void ring_reset(struct ring *r) {
    memset(r, 0, sizeof *r);
}

int ring_put(struct ring *r, int value) {
    unsigned next = (r->head + 1u) & RING_MASK;
    if (next == r->tail) {
        r->lost++;
        LOG(\"full at %u, lost %lu\\n\", r->head, r->lost);
        return -1;
    }
    r->data[r->head] = value;
    r->head = next;
    return 0;
}

/* Copies `count` readings from place `start` on, with the turn from the last place to the first, and says how many were below 0. */
int ring_copy(const int from[RING_SIZE], int start, int count, int *to) {
    if (start < 0 || start >= RING_SIZE || count < 0 || count > RING_SIZE) return -1;
    int at = start;
    for (int i = 0; i < count; i++) {
        to[i] = from[at++];
        if (at == RING_SIZE) at = 0;
    }
    int below = 0;
    for (int i = 0; i < count; i++) {
        if (to[i] < 0) below++;
    }
    return below;
}

int main(void) {
    int copied[RING_SIZE];
    ring_put(&readings, 7);
    printf(\"%d\\n\", ring_copy(readings.data, 0, 1, copied));
    return 0;
}
";

// date.c
const DATE: &[u8] = b"/* Days and months. */
#include <assert.h>
#include <stdio.h>
#include <time.h>

enum { JANUARY = 1, FEBRUARY, MARCH, APRIL, MAY, JUNE, JULY, AUGUST, SEPTEMBER, OCTOBER, NOVEMBER, DECEMBER };
enum weekday { SUNDAY, MONDAY, TUESDAY, WEDNESDAY, THURSDAY, FRIDAY, SATURDAY, DAYS };

static const int MONTHS = 12;

typedef struct {
    short year;
    unsigned char month, day;
} date_t;

static const char *const month_names[] = {
    \"January\", \"February\", \"March\", \"April\", \"May\", \"June\", \"July\", \"August\", \"September\", \"October\", \"November\", \"December\",
};

static int is_leap(int year) {
    return year % 4 == 0 && (year % 100 != 0 || year % 400 == 0);
}

/* The month of a day of the year, which is counted from 1. */
int month_of(int day, int leap) {
    const int length[2][12] = {
        { 31, 28, 31, 30, 31, 30, 31, 31, 30, 31, 30, 31 },
        { 31, 29, 31, 30, 31, 30, 31, 31, 30, 31, 30, 31 },
    };
    int month = JANUARY;
    while (month < DECEMBER && day > length[leap != 0][month - JANUARY]) {
        day -= length[leap != 0][month - JANUARY];
        month++;
    }
    assert(JANUARY <= month && month <= MONTHS);
    return month;
}

/* The day of the week so many days behind a Sunday. */
int weekday_behind(int days) {
    int day = days % DAYS;
    if (day < SUNDAY) day += DAYS;
    assert(SUNDAY <= day && day <= SATURDAY);
    return day;
}

void print_date(const date_t *date) {
    printf(\"%d %s %d%s\\n\", date->day, month_names[date->month - 1], date->year, is_leap(date->year) ? \" (leap)\" : \"\");
}
";

// classes.c
const CLASSES: &[u8] = b"/* Size classes of an allocator. */
#include <limits.h>
#include <stddef.h>
#include <stdint.h>

#define CLASSES 32
#define GRAIN 16
#define PAGE 0x1000
#define ALIGN_UP(n, a) (((n) + ((a) - 1)) & ~((a) - 1))
#define NO_CLASS (-1)

typedef struct chunk {
    struct chunk *next;
    uint32_t size : 24;
    uint32_t state : 8;
} chunk;

static chunk *bins[CLASSES];

static inline size_t pages_of(size_t bytes) {
    return ALIGN_UP(bytes, (size_t)PAGE) / PAGE;
}

/* A request in whole grains. */
int rounded(int bytes) {
    if (bytes < 0 || bytes > INT_MAX - GRAIN) return NO_CLASS;
    int grains = (bytes + (GRAIN - 1)) / GRAIN;
    return grains * GRAIN;
}

/* The first class whose chunks are large enough. */
int class_of(int bytes, const int sizes[CLASSES]) {
    if (bytes > sizes[CLASSES - 1]) return NO_CLASS;
    int low = 0;
    int high = CLASSES - 1;
    while (low < high) {
        int middle = low + (high - low) / 2;
        if (sizes[middle] < bytes) low = middle + 1; else high = middle;
    }
    return low;
}

chunk *take(int class) {
    chunk *c = bins[class];
    if (c != NULL) bins[class] = c->next;
    return c;
}
";

// The ring: the joins of its first `if` and its first loop come in two rounds, what is in the loop and the second loop in the third, the
// counter of the first loop in the fourth, with how far it may be at the second; then the second loop's body, and its counters.
const FILES: &[(&str, &[u8], Ending)] = &[
    (
        "verify p --function ring_copy",
        RING,
        Ending::Report(
            b"check 0 at 39:11: index: proved\
                \ncheck 1 at 39:21: index: proved\
                \ncheck 2 at 44:15: index: proved\nproved 3 of 3\nimprovements: 6\n",
        ),
    ),
    (
        "verify p --function month_of",
        DATE,
        Ending::Report(
            b"check 0 at 31:44: index: proved\
                \ncheck 1 at 31:55: index: proved\
                \ncheck 2 at 32:22: index: proved\
                \ncheck 3 at 32:33: index: proved\
                \ncheck 4 at 35:5: assert: proved\nproved 5 of 5\nimprovements: 2\n",
        ),
    ),
    (
        "verify p --function rounded --int 32",
        CLASSES,
        Ending::Report(
            b"check 0 at 26:38: range: proved\
                \ncheck 1 at 27:34: range: proved\
                \ncheck 2 at 27:25: range: proved\
                \ncheck 3 at 27:40: range: proved\
                \ncheck 4 at 28:19: range: proved\nproved 5 of 5\nimprovements: 1\n",
        ),
    ),
    (
        "functions p",
        RING,
        Ending::Report(b"ring_reset\nring_put\nring_copy\nmain\n"),
    ),
];

#[test]
fn functions_of_the_examples_have_verdicts(rt: HostRuntime) {
    assert_eq!(rt; first_wrong(rt.alloc(), FILES), None);
}

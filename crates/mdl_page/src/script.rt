//! The script of a page.

/// The script of a page. It shows the facts of a line by elements that it makes, and sets their texts as texts. It finds the boxes of a line by their
/// places in the picture: `commands/view_pages.py` looks whether each line has its own.
pub const SCRIPT: &[u8] = b"'use strict';
(() => {
const at = id => document.getElementById(id);
const data = JSON.parse(at('data').textContent);
const [timeline, shown, facts, modes] = ['timeline', 'shown', 'facts', 'modes'].map(at);
const picture = timeline.querySelector('svg');

// Elements.
const make = (name, parts) => {
  const element = document.createElement(name);
  if (typeof parts === 'string') element.textContent = parts;
  else element.append(...parts);
  return element;
};
const marked = (kind, element) => {
  element.className = kind;
  return element;
};
const list = texts => make('ul', texts.map(text => make('li', text)));
const table = (heads, rows) => make('table', [
  make('thead', [make('tr', heads.map(text => make('th', text)))]),
  make('tbody', rows.map(row => make('tr', row.map(it => typeof it === 'string' ? make('td', it) : it)))),
]);
const section = (title, parts) => make('section', [make('h3', title), ...parts]);
const none = text => marked('none', make('p', text));
const cell = (kind, text) => marked(kind, make('td', text));

// Items with the same key, together. Keys are compared as JSON.
const grouped = (items, key, value) => {
  const groups = new Map();
  for (const it of items) {
    const name = JSON.stringify(key(it));
    if (!groups.has(name)) groups.set(name, []);
    groups.get(name).push(value(it));
  }
  return [...groups].map(([name, values]) => [JSON.parse(name), values]);
};

// Words. A script has no KILL of a session: its session ends.
const named = sessions => sessions.length === 1 ? 'session ' + sessions[0] : 'sessions ' + sessions.slice(0, -1).join(', ') + ' and ' + sessions[sessions.length - 1];
const say = (sessions, verb, what) => named(sessions) + ' ' + verb + (sessions.length === 1 ? 's ' : ' ') + what;
const lock_of = it => it.mode + ' of ' + it.lock;
const gains = wishes => grouped(wishes, lock_of, it => it.session).map(([gain, sessions]) => say(sessions, 'get', gain));
const act = (name, sessions) => name === 'KILL' ? 'End ' + named(sessions) : name + ' ' + sessions.join(', ');
const more = (count, text) => count === 0 ? [] : [text + count];
const how_many = count => count === 0 ? 'nobody waits' : count === 1 ? '1 request waits' : count + ' requests wait';

// Tickets in their order, with neighbours of one mode together.
const tickets = found => {
  const runs = [];
  for (const it of found) {
    const last = runs[runs.length - 1];
    if (last?.mode === it.mode) last.sessions.push(it.session);
    else runs.push({mode: it.mode, sessions: [it.session]});
  }
  return runs.map(run => named(run.sessions) + ' ' + run.mode);
};

// Who holds which locks, and who waits for them. Those with waiters come first.
const is_awaited = lock => lock.waiting.length + lock.settled.length !== 0;
const show_locks = found => {
  const used = found.locks.filter(lock => lock.granted.length !== 0 || is_awaited(lock));
  const rows = [...used.filter(is_awaited), ...used.filter(lock => !is_awaited(lock))].map(lock => [
    lock.lock,
    cell('holds', tickets(lock.granted).join('; ')),
    cell('waits', [...tickets(lock.waiting), ...tickets(lock.settled).map(it => it + ' (lost, not yet told)')].join('; ')),
  ]);
  return section('Locks', [rows.length === 0 ? none('Nobody holds a lock.') : table(['lock', 'is held by', 'is awaited by'], rows)]);
};

// Who waits for whom.
const cause = it => it.reason === 'holds' ? ['hold', it.blocking_mode] : ['wait', 'before it for ' + it.blocking_mode];
const causes = found => grouped(found, cause, it => it.blocking).map(([[verb, what], sessions]) => say(sessions, verb, what)).join('; ');
const show_waits = found => {
  const explained = grouped(found.waits, it => [it.session, lock_of(it)], it => it).map(([[session, wish], blocks]) => [session, wish, causes(blocks)]);
  const unexplained = found.unexplained.map(it => [it.session, lock_of(it), 'nothing that the locks show']);
  const rows = grouped([...explained, ...unexplained], it => it.slice(1), it => it[0]).map(([texts, sessions]) => [named(sessions), ...texts]);
  return section('Who waits for whom', [rows.length === 0 ? none('No session waits.') : table(['who', 'waits for', 'because'], rows)]);
};

// What would follow if a session ended: of what it holds there, and who gets what.
const same = (one, other) => one.session === other.session && one.mode === other.mode && one.lock === other.lock;
const way = it => {
  const later = it.in_turn.filter(one => !it.at_once.some(other => same(one, other)));
  const held = it.holds.filter(one => [...it.at_once, ...later].some(other => one.lock === other.lock));
  return make('li', [make('span', act(it.act, [it.session])), list([
    ...held.map(one => 'it holds ' + lock_of(one)),
    ...gains(it.at_once).map(gain => 'at once ' + gain),
    ...gains(later).map(gain => 'then ' + gain),
  ])]);
};
const after = (text, count, acts) => make('li', [
  make('span', text + (count === 1 ? ' this:' : ' all ' + count + ' of these:')),
  list([...grouped(acts, it => it.act, it => it.session).map(([name, sessions]) => act(name, sessions)), ...more(count - acts.length, 'and more: ')]),
]);
const together = found => grouped(found, it => [lock_of(it), it.blockers, it.acts], it => it.session);
const joint = ([[wish, count, acts], sessions]) => after('So that ' + say(sessions, 'get', wish) + ', do', count, acts);
const stuck = ([[wish, count, acts], sessions]) => after(say(sessions, 'wait', 'for ' + wish) + ' in a deadlock, or behind one; what helps is', count, acts);
const show_ways = found => {
  const rows = [
    ...found.ways.map(way),
    ...more(found.more_ways, 'More ways, which are no better: ').map(text => make('li', text)),
    ...together(found.joint).map(joint),
    ...more(found.more_joint, 'More requests that go on only after several acts: ').map(text => make('li', text)),
    ...together(found.deadlocked).map(stuck),
    ...more(found.more_deadlocked, 'More requests in deadlocks: ').map(text => make('li', text)),
  ];
  return section('If a session ended', [rows.length === 0 ? none('No wait would end.') : make('ul', rows)]);
};

// Elements of the picture, and sizes.
const draw = (name, attributes) => {
  const element = document.createElementNS('http://www.w3.org/2000/svg', name);
  for (const [key, value] of Object.entries(attributes)) element.setAttribute(key, value);
  return element;
};
const size = (element, key) => Number(element.getAttribute(key));
const wide = size(picture, 'width');
const high = size(picture, 'height');

// The columns of the lines: a guide is where one begins. Each box that begins in a column is of its line: first that of its own statement, and behind
// it those of statements that went on.
const guide = picture.querySelector('line.guide');
const guides = [...picture.querySelectorAll('line.guide')].map(it => size(it, 'x1'));
const column_at = x => {
  let [low, high] = [0, guides.length];
  while (high - low > 1) {
    const middle = (low + high) >> 1;
    if (guides[middle] <= x) low = middle;
    else high = middle;
  }
  return low;
};
const boxes = data.map(() => []);
const columns = new Map();
for (const rect of picture.querySelectorAll('rect.done,rect.waiting,rect.failed,rect.refused')) {
  const box = rect.closest('g');
  if (box === null) continue;
  const place = column_at(size(rect, 'x'));
  boxes[place].push(box);
  columns.set(box, place);
}
const titled = box => box.querySelector('title').textContent;

// The text of the script, by its lines, and its title: the first sentence of the comment at its head.
const source = at('source').textContent.split('\\n');
if (source[source.length - 1] === '') source.pop();
const items = source.map(text => make('li', text));
const shown_source = section('Script', [make('ol', items)]);
const behind_comment = source.findIndex(text => !text.startsWith('#'));
const title = source.slice(0, Math.max(behind_comment, 0)).map(text => text.slice(1).trim()).join(' ').split('. ')[0];
if (title !== '') document.title = document.querySelector('h1').textContent = title;

// The mark of the line that is shown.
const mark = draw('rect', {class: 'chosen', y: 0});

// The numbers of the lines and the names of the sessions, over their places in the picture, but they stay in sight while it is scrolled.
const copies = selector => [...picture.querySelectorAll(selector)].map(it => it.cloneNode(true));
const edge = (kind, width, height, parts) => {
  const element = draw('svg', {class: 'edge ' + kind, width, height, 'aria-hidden': 'true'});
  element.append(draw('rect', {class: 'ground', width, height}), ...parts);
  return element;
};
const [word, ...numbers] = copies('text.number');
const edges = () => {
  const [side, top] = [size(guide, 'x1') - 8, size(guide, 'y1')];
  const lanes = copies('rect.lane');
  for (const lane of lanes) lane.setAttribute('width', side);
  return [
    edge('top', wide, top, numbers),
    edge('left', side, size(guide, 'y2'), [...lanes, ...copies('rect.lane + text')]),
    edge('top left', side, top, [word]),
  ];
};

// What is seen of the picture: all of it, or on paper what is around the box of the line that is shown.
const see = (x, y, width, height) => {
  picture.setAttribute('viewBox', [x, y, width, height].join(' '));
  picture.setAttribute('width', width);
  picture.setAttribute('height', height);
};
const begin = (middle, part, whole) => Math.min(Math.max(middle - part / 2, 0), whole - part);
const put_on_paper = fixed => {
  const box = boxes[chosen][0].querySelector('rect');
  const [width, height] = [Math.min(wide, 1100), Math.min(high, 800)];
  const [x, y] = [begin(size(box, 'x'), width, wide), begin(size(box, 'y'), height, high)];
  const scrolled = {left: timeline.scrollLeft, top: timeline.scrollTop};
  see(x, y, width, height);
  for (const it of fixed) {
    it.setAttribute('x', it.classList.contains('left') ? x : 0);
    it.setAttribute('y', it.classList.contains('top') ? y : 0);
  }
  picture.append(...fixed);
  window.addEventListener('afterprint', () => {
    see(0, 0, wide, high);
    timeline.append(...fixed);
    timeline.scrollTo(scrolled);
  }, {once: true});
};

// The line that is shown, by its place among all, and whether it is kept.
let chosen = -1;
let kept = false;
const marks = place => place === -1 ? [] : [...boxes[place], numbers[place], items[data[place].line - 1]];
const choose = place => {
  if (place !== chosen) {
    for (const it of marks(chosen)) it.classList.remove('now');
    chosen = place;
    for (const it of marks(chosen)) it.classList.add('now');
    const end = place + 1 === guides.length ? wide : guides[place + 1];
    mark.setAttribute('x', guides[place]);
    mark.setAttribute('width', end - guides[place]);
    mark.setAttribute('height', size(guide, 'y2'));
  }
  show();
};
const show = () => {
  const it = data[chosen];
  shown.textContent = 'After line ' + it.line + ': ' + how_many(it.why.waits) + (kept ? ' (kept until Escape)' : '');
  facts.replaceChildren(
    marked('said', list(boxes[chosen].map(titled))),
    make('div', [show_waits(it.waits), show_ways(it.why)]),
    make('div', [show_locks(it.locks), shown_source, modes]),
  );
};
const reveal = where => boxes[chosen][0].querySelector('rect').scrollIntoView({block: where, inline: where});

// A line that is kept is in the address of the page.
const keep = (place, so) => {
  kept = so;
  choose(place);
  history.replaceState(null, '', kept ? '#' + data[place].line : location.pathname + location.search);
};
const open = () => {
  const place = data.findIndex(it => location.hash === '#' + it.line);
  if (place === -1) return false;
  keep(place, true);
  reveal('center');
  return true;
};

// The pointer: the line is that of the box under it, or that of the column.
let pointed = '';
const under = event => {
  const box = event.target.closest('g');
  if (columns.has(box)) return columns.get(box);
  return column_at(new DOMPoint(event.clientX, event.clientY).matrixTransform(picture.getScreenCTM().inverse()).x);
};
const point = event => {
  const where = event.clientX + ' ' + event.clientY;
  if (kept || where === pointed) return;
  pointed = where;
  const place = under(event);
  if (place !== chosen) choose(place);
};
const click = event => {
  const place = under(event);
  keep(place, !(kept && place === chosen));
};

// Keys.
const steps = {ArrowLeft: -1, ArrowRight: 1, PageUp: -10, PageDown: 10, Home: -data.length, End: data.length};
const press = event => {
  if (event.altKey || event.ctrlKey || event.metaKey || !(event.key in steps || event.key === 'Enter')) return;
  event.preventDefault();
  if (event.key === 'Enter') return keep(chosen, !kept);
  const place = Math.min(Math.max(chosen + steps[event.key], 0), data.length - 1);
  if (kept) keep(place, true);
  else choose(place);
  reveal('nearest');
};

if (data.length === 0) {
  facts.replaceChildren(none('The script has no lines.'), shown_source);
  at('source').remove();
  return;
}
at('keys').hidden = false;
at('source').remove();
data.forEach((it, place) => {
  const item = items[it.line - 1];
  item.classList.add('played');
  item.addEventListener('click', () => {
    keep(place, true);
    reveal('center');
  });
});
const fixed = edges();
picture.append(mark);
timeline.append(...fixed);
picture.addEventListener('pointermove', point);
picture.addEventListener('click', click);
timeline.addEventListener('keydown', press);
document.addEventListener('keydown', event => {
  if (event.key === 'Escape') keep(chosen, false);
});
window.addEventListener('beforeprint', () => put_on_paper(fixed));
window.addEventListener('hashchange', open);

// The page opens at the line that its address names, or at the first line after which most requests wait, or at the last one if none ever does.
if (!open()) {
  const most = data.reduce((greatest, it) => Math.max(greatest, it.why.waits), 0);
  choose(most === 0 ? data.length - 1 : data.findIndex(it => it.why.waits === most));
  reveal('center');
}
})();
";
